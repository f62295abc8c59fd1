// How many whole years and months lie from one day to another, and the days left after them.
ghost use Rattle.std.specs.Prelude.{◌≡◌, ◌≤◌, true};
ghost use Rattle.span_law.specs.Measuring.{fits_before, years_apart, months_apart, days_left};
ghost use Rattle.span_law.specs.Stepping.{signed, year_on};
ghost use Rattle.calendar_steps.specs.Standing.{Between};

use crate::calendar_at::CalendarAt;
use crate::dated::Dated;
use crate::directions::with_way;
use crate::fits::fits_uncut;
use calendar::source::CalendarSource;
use span_law::way::Way;
use span_law::year_month::YearMonth;

impl<C: CalendarSource> CalendarAt<'_, C> {
    // The most years after which the start's day, uncut, is not past the end. It is all of them or one less, by whether the
    // start's day is past the end in the end's own year.
    pub(crate) fn whole_years(&self, way: Way, from: Dated, to: Dated) -> u32
        requires { Between ((C.CalendarSource.calendars self.now.source.now).calendar self.now.number) way from to }
        ensures is { result ≡ years_apart ((C.CalendarSource.calendars self.now.source.now).calendar self.now.number) way from.number to.number }
        ensures few { result ≤ 4000000 }
    {
        let years = from.date.year.abs_diff(to.date.year);
        let twin = YearMonth {
            year: to.date.year,
            month: self.twin_of(from.date, to.date.year),
        };
        if fits_uncut(way, twin, from.date.day, to.date) {
            years
        } else {
            years - 1
        }
    }

    // After years that fit, the most months after which the start's day, uncut, is not past the end: all of them or one less,
    // by the same test in the end's own month.
    pub(crate) fn whole_months(&self, way: Way, from: Dated, to: Dated, years: u32) -> u32
        requires between { Between ((C.CalendarSource.calendars self.now.source.now).calendar self.now.number) way from to }
        requires years { years ≤ 4000000 }
        requires fits { fits_before ((C.CalendarSource.calendars self.now.source.now).calendar self.now.number) way from.number to.number (year_on ((C.CalendarSource.calendars self.now.source.now).calendar self.now.number) (((C.CalendarSource.calendars self.now.source.now).calendar self.now.number).date from.number) (signed way years)) ≡ true }
        ensures is { result ≡ months_apart ((C.CalendarSource.calendars self.now.source.now).calendar self.now.number) way from.number to.number years }
        ensures few { result ≤ 300000000 }
    {
        let start = match self.year_on(from.date, with_way(way, years)) {
            Some(start) => start,
            None => unreachable(),
        };
        let end = YearMonth {
            year: to.date.year,
            month: to.date.month,
        };
        let months = self.months_along(way, start, end);
        if fits_uncut(way, end, from.date.day, to.date) {
            months
        } else {
            months - 1
        }
    }

    // The days left after years and months, the day cut to the month's length.
    pub(crate) fn rest_days(&self, way: Way, from: Dated, to: Dated, years: u32, months: u32) -> u32
        requires between { Between ((C.CalendarSource.calendars self.now.source.now).calendar self.now.number) way from to }
        requires years { years ≤ 4000000 }
        requires months { months ≤ 300000000 }
        ensures is { result ≡ days_left ((C.CalendarSource.calendars self.now.source.now).calendar self.now.number) way from.number to.number years months }
        ensures few { result ≤ 3652059 }
    {
        match self.day_after_months(from, with_way(way, years), with_way(way, months)) {
            Some(number) => to.number.abs_diff(number),
            None => 0,
        }
    }
}
