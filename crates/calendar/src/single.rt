// A source of one calendar.
ghost use Rattle.std.specs.Prelude.{◌≡◌, ◌<◌, ◌≤◌};
ghost use Rattle.std.specs.Option.{MatchOption};
ghost use Rattle.calendar.specs.Namings.{name_of};
ghost use Rattle.calendar.specs.Singles.{single, single_count};
ghost use Rattle.calendar.specs.SingleLaws.{single_laws};

use crate::named::Named;
use crate::one::{length_of, months_of, twin_of};
use crate::source::CalendarSource;
use years::date::Date;
use years::days::{date_of_day, day_of_date};
use years::rule::YearRule;

// One calendar, told by the rule of its years, under a name. A name out of form leaves the source no calendar.
#[derive(Clone, Copy)]
pub struct Single<R> {
    pub name: Named,
    pub rule: R,
}

impl<R> Single<R> {
    // The rule of a calendar of the source; none where the source has no such calendar.
    fn rule_of(&self, calendar: usize) -> Option<&R>
        ensures { MatchOption result (single_count (name_of self.now.name) ≤ calendar) (λ rule. (calendar < single_count (name_of self.now.name)) × (rule.now ≡ self.now.rule)) }
    {
        (calendar == 0 && self.name.is_in_form()).then_some(&self.rule)
    }
}

impl<R: YearRule> CalendarSource for Single<R> {
    ghost calendars = { λ s. single (R.YearRule.years s.rule) (name_of s.name) };

    ghost lawful = { λ s. single_laws (R.YearRule.years s.rule) (R.YearRule.lawful s.rule) (name_of s.name) };

    fn count(&self) -> usize {
        usize::from(self.name.is_in_form())
    }

    fn name(&self, calendar: usize) -> Option<&[u8]> {
        let _there = self.rule_of(calendar)?;
        Some(self.name.bytes())
    }

    fn first_year(&self, calendar: usize) -> Option<i32> {
        Some(self.rule_of(calendar)?.first_year())
    }

    fn last_year(&self, calendar: usize) -> Option<i32> {
        Some(self.rule_of(calendar)?.past_year() - 1)
    }

    fn months(&self, calendar: usize, year: i32) -> Option<u8> {
        months_of(self.rule_of(calendar)?, year)
    }

    fn length(&self, calendar: usize, year: i32, month: u8) -> Option<u8> {
        length_of(self.rule_of(calendar)?, year, month)
    }

    fn date(&self, calendar: usize, day: u32) -> Option<Date> {
        date_of_day(self.rule_of(calendar)?, day)
    }

    fn day(&self, calendar: usize, date: Date) -> Option<u32> {
        day_of_date(self.rule_of(calendar)?, date)
    }

    fn twin(&self, calendar: usize, year: i32, month: u8, other: i32) -> Option<u8> {
        twin_of(self.rule_of(calendar)?, year, month, other)
    }
}
