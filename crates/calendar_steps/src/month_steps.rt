// Steps of months: a year at a time, so that the work is one question for each year between.
ghost use Rattle.std.specs.Prelude.{◌≡◌, IfSome, unsigned_abs};
ghost use Rattle.span_law.specs.declared.way.Way.TheVariants.{Onward, Back};
ghost use Rattle.span_law.specs.Standing.{Stands};
ghost use Rattle.span_law.specs.Stepping.{months_on, way_of};

use crate::calendar_at::CalendarAt;
use calendar::source::CalendarSource;
use span_law::year_month::YearMonth;

impl<C: CalendarSource> CalendarAt<'_, C> {
    // The month some months later; none where it lies past the last year.
    fn months_after(&self, from: YearMonth, months: u32) -> Option<YearMonth>
        requires { Stands ((C.CalendarSource.calendars self.now.source.now).calendar self.now.number) from.year from.month }
        ensures is { result ≡ months_on ((C.CalendarSource.calendars self.now.source.now).calendar self.now.number) Onward months from }
        ensures stands { IfSome result (λ p. Stands ((C.CalendarSource.calendars self.now.source.now).calendar self.now.number) p.year p.month) }
    {
        let last = self.last_year();
        let mut year = from.year;
        // counted from the start of the year
        let mut left = u64::from(from.month) + u64::from(months);
        while year <= last {
            let in_year = u64::from(self.months_in(year));
            if left <= in_year {
                let month = left as u8;
                return Some(YearMonth { year, month });
            }
            left -= in_year;
            year += 1;
        }
        None
    }

    // The month some months earlier; none where it lies before the first year.
    fn months_before(&self, from: YearMonth, months: u32) -> Option<YearMonth>
        requires { Stands ((C.CalendarSource.calendars self.now.source.now).calendar self.now.number) from.year from.month }
        ensures is { result ≡ months_on ((C.CalendarSource.calendars self.now.source.now).calendar self.now.number) Back months from }
        ensures stands { IfSome result (λ p. Stands ((C.CalendarSource.calendars self.now.source.now).calendar self.now.number) p.year p.month) }
    {
        let first = self.first_year();
        let mut year = from.year;
        // counted back from the last month of the year
        let mut back = u64::from(self.months_in(year) - from.month) + u64::from(months);
        while first <= year {
            let in_year = u64::from(self.months_in(year));
            if back < in_year {
                let month = (in_year - back) as u8;
                return Some(YearMonth { year, month });
            }
            back -= in_year;
            year -= 1;
        }
        None
    }

    // The month some months on, or back where the number is below nought.
    pub(crate) fn months_on(&self, from: YearMonth, months: i32) -> Option<YearMonth>
        requires { Stands ((C.CalendarSource.calendars self.now.source.now).calendar self.now.number) from.year from.month }
        ensures is { result ≡ months_on ((C.CalendarSource.calendars self.now.source.now).calendar self.now.number) (way_of months) (unsigned_abs months) from }
        ensures stands { IfSome result (λ p. Stands ((C.CalendarSource.calendars self.now.source.now).calendar self.now.number) p.year p.month) }
    {
        if months < 0 {
            self.months_before(from, months.unsigned_abs())
        } else {
            self.months_after(from, months.unsigned_abs())
        }
    }
}
