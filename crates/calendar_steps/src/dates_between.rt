// The date parts from one day to another.
ghost use Rattle.std.specs.Prelude.{◌≡◌, ◌≤◌, true, pos, ◌-ℤ◌};
ghost use Rattle.span_law.specs.Measuring.{fits_before, parts_after, parts_by, span_of};
ghost use Rattle.span_law.specs.Standing.{Leads};
ghost use Rattle.span_law.specs.Stepping.{signed, year_on};
ghost use Rattle.calendar_steps.specs.Days.{dates_between, weeks_of};
ghost use Rattle.calendar_steps.specs.Standing.{Between};

use crate::calendar_at::CalendarAt;
use crate::dated::Dated;
use crate::day_numbers::is_day;
use crate::directions::{leads, with_way};
use calendar::source::CalendarSource;
use span_law::unit::Unit;
use span_law::way::Way;
use timebase::divisor::Divisor;
use timebase::span::Span;
use timebase::splits::split_toward_zero;

// The weeks from one day to another, and the days left: both bear the sign of the days between.
fn weeks_between(start: u32, end: u32) -> Span
    requires start { start ≤ 3652059 }
    requires end { end ≤ 3652059 }
    ensures { result ≡ weeks_of (pos end -ℤ pos start) }
{
    let between = i64::from(end) - i64::from(start);
    let (weeks, days) = split_toward_zero(between, Divisor::DAYS_A_WEEK);
    Span {
        weeks: weeks as i32,
        days: days as i32,
        ..Span::default()
    }
}

impl<C: CalendarSource> CalendarAt<'_, C> {
    // After years that fit, the months and the days.
    fn after_years(&self, way: Way, from: Dated, to: Dated, years: u32) -> Span
        requires between { Between ((C.CalendarSource.calendars self.now.source.now).calendar self.now.number) way from to }
        requires years { years ≤ 4000000 }
        requires fits { fits_before ((C.CalendarSource.calendars self.now.source.now).calendar self.now.number) way from.number to.number (year_on ((C.CalendarSource.calendars self.now.source.now).calendar self.now.number) (((C.CalendarSource.calendars self.now.source.now).calendar self.now.number).date from.number) (signed way years)) ≡ true }
        ensures { result ≡ span_of way (parts_after ((C.CalendarSource.calendars self.now.source.now).calendar self.now.number) way from.number to.number years) (pos 0) }
    {
        let months = self.whole_months(way, from, to, years);
        let days = self.rest_days(way, from, to, years, months);
        Span {
            years: with_way(way, years),
            months: with_way(way, months),
            days: with_way(way, days),
            ..Span::default()
        }
    }

    // The date parts from one day to another that lies in the direction.
    fn parts_between(&self, way: Way, start: u32, end: u32, unit: Unit) -> Span
        requires start { (1 ≤ start) × (start ≤ 3652059) }
        requires end { (1 ≤ end) × (end ≤ 3652059) }
        requires leads { Leads way start end }
        ensures { result ≡ span_of way (parts_by ((C.CalendarSource.calendars self.now.source.now).calendar self.now.number) way start end unit) (pos 0) }
    {
        match unit {
            Unit::Hour => Span::default(),
            Unit::Day => Span {
                days: with_way(way, start.abs_diff(end)),
                ..Span::default()
            },
            Unit::Week => weeks_between(start, end),
            Unit::Month => {
                let from = self.with_date(start);
                let to = self.with_date(end);
                self.after_years(way, from, to, 0)
            }
            Unit::Year => {
                let from = self.with_date(start);
                let to = self.with_date(end);
                let years = self.whole_years(way, from, to);
                self.after_years(way, from, to, years)
            }
        }
    }

    // The date parts from one day to another in a direction, with no time; none where either is no day, or the second doesn't
    // lie that way.
    pub fn dates_between(&self, way: Way, start: u32, end: u32, unit: Unit) -> Option<Span>
        ensures { result ≡ dates_between ((C.CalendarSource.calendars self.now.source.now).calendar self.now.number) way start end unit }
    {
        if is_day(start) && is_day(end) && leads(way, start, end) {
            Some(self.parts_between(way, start, end, unit))
        } else {
            None
        }
    }
}
