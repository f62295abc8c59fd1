// Steps of years.
ghost use Rattle.std.specs.Prelude.{◌≡◌, IfSome};
ghost use Rattle.span_law.specs.Standing.{Stands};
ghost use Rattle.span_law.specs.Stepping.{year_on};

use crate::calendar_at::CalendarAt;
use calendar::source::CalendarSource;
use span_law::year_month::YearMonth;
use years::date::Date;

impl<C: CalendarSource> CalendarAt<'_, C> {
    // The twin of a date's month, some years on; none where the calendar has no such year.
    pub(crate) fn year_on(&self, from: Date, years: i32) -> Option<YearMonth>
        requires { Stands ((C.CalendarSource.calendars self.now.source.now).calendar self.now.number) from.year from.month }
        ensures is { result ≡ year_on ((C.CalendarSource.calendars self.now.source.now).calendar self.now.number) from years }
        ensures stands { IfSome result (λ p. Stands ((C.CalendarSource.calendars self.now.source.now).calendar self.now.number) p.year p.month) }
    {
        let year = from.year.checked_add(years)?;
        if !self.has_year(year) {
            return None;
        }
        let month = self.twin_of(from, year);
        Some(YearMonth { year, month })
    }
}
