// The day that the date parts of a span lead to.
ghost use Rattle.std.specs.Prelude.{◌≡◌, ◌≤◌, pos, option_map, IfSome};
ghost use Rattle.span_law.specs.Standing.{Stands};
ghost use Rattle.span_law.specs.Stepping.{cut, month_day_on};
ghost use Rattle.calendar_steps.specs.Days.{day_after};
ghost use Rattle.calendar_steps.specs.Standing.{IsDated};

use crate::calendar_at::CalendarAt;
use crate::dated::Dated;
use crate::day_numbers::{days_in, in_days, is_day};
use calendar::source::CalendarSource;
use span_law::year_month::YearMonth;
use timebase::span::Span;
use years::date::Date;

impl<C: CalendarSource> CalendarAt<'_, C> {
    // A day in a month, cut to the month's length.
    fn cut_date(&self, day: u8, at: YearMonth) -> Date
        requires { Stands ((C.CalendarSource.calendars self.now.source.now).calendar self.now.number) at.year at.month }
        ensures { result ≡ cut ((C.CalendarSource.calendars self.now.source.now).calendar self.now.number) day at }
    {
        Date {
            year: at.year,
            month: at.month,
            day: day.min(self.length_of(at)),
        }
    }

    // The day number after years and months. The day of the month is cut once, to the length of the month arrived at: a month
    // on the way doesn't shorten it.
    pub(crate) fn day_after_months(&self, from: Dated, years: i32, months: i32) -> Option<u32>
        requires { IsDated ((C.CalendarSource.calendars self.now.source.now).calendar self.now.number) from }
        ensures is { result ≡ month_day_on ((C.CalendarSource.calendars self.now.source.now).calendar self.now.number) from.number years months }
        ensures inside { IfSome result (λ n. n ≤ 3652059) }
    {
        let twin = self.year_on(from.date, years)?;
        let month = self.months_on(twin, months)?;
        let date = self.cut_date(from.date.day, month);
        self.source.day(self.number, date)
    }

    // The day number after the date parts of a span: its years and months, and then its weeks and days. None where `day` is no
    // day, or a year, the date or the day arrived at isn't there.
    pub fn day_after(&self, day: u32, span: &Span) -> Option<u32>
        ensures { option_map pos result ≡ day_after ((C.CalendarSource.calendars self.now.source.now).calendar self.now.number) day span.now }
    {
        if !is_day(day) {
            return None;
        }
        let from = self.with_date(day);
        let number = self.day_after_months(from, span.years, span.months)?;
        in_days(i64::from(number) + days_in(span.weeks, span.days))
    }
}
