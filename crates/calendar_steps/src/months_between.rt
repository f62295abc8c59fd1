// The months from one month to another.
ghost use Rattle.std.specs.Prelude.{◌≡◌, ◌≤◌, Some};
ghost use Rattle.span_law.specs.declared.way.Way.TheVariants.{Onward};
ghost use Rattle.span_law.specs.Standing.{Stands};
ghost use Rattle.span_law.specs.Stepping.{months_on};
ghost use Rattle.calendar_steps.specs.Standing.{NotAfter, Ordered};

use crate::calendar_at::CalendarAt;
use calendar::source::CalendarSource;
use span_law::way::Way;
use span_law::year_month::YearMonth;

impl<C: CalendarSource> CalendarAt<'_, C> {
    // The months from one month to a later one, a year at a time.
    fn months_up(&self, from: YearMonth, to: YearMonth) -> u32
        requires from { Stands ((C.CalendarSource.calendars self.now.source.now).calendar self.now.number) from.year from.month }
        requires to { Stands ((C.CalendarSource.calendars self.now.source.now).calendar self.now.number) to.year to.month }
        requires order { NotAfter from to }
        ensures is { months_on ((C.CalendarSource.calendars self.now.source.now).calendar self.now.number) Onward result from ≡ Some to }
        ensures few { result ≤ 300000000 }
    {
        let mut count = 0;
        for year in from.year..to.year {
            count += u32::from(self.months_in(year));
        }
        count + u32::from(to.month) - u32::from(from.month)
    }

    // The months from one month to another in a direction.
    pub(crate) fn months_along(&self, way: Way, from: YearMonth, to: YearMonth) -> u32
        requires from { Stands ((C.CalendarSource.calendars self.now.source.now).calendar self.now.number) from.year from.month }
        requires to { Stands ((C.CalendarSource.calendars self.now.source.now).calendar self.now.number) to.year to.month }
        requires order { Ordered way from to }
        ensures is { months_on ((C.CalendarSource.calendars self.now.source.now).calendar self.now.number) way result from ≡ Some to }
        ensures few { result ≤ 300000000 }
    {
        match way {
            Way::Onward => self.months_up(from, to),
            Way::Back => self.months_up(to, from),
        }
    }
}
