// Measuring the span from one instant to another.
ghost use Rattle.std.specs.Prelude.{◌≡◌, ◌≤◌, cond, pos, ◌+ℤ◌, ◌≤ℤ◌, IfOk, IsOk};
ghost use Rattle.local_times.specs.Locals.{Known};
ghost use Rattle.local_times.specs.Meeting.{is};
ghost use Rattle.span_law.specs.Carrying.{natural};
ghost use Rattle.span_law.specs.Law.{TrueSpan};
ghost use Rattle.span_law.specs.Measuring.{way_between, span_of, parts_by, measured_dates, measured_by, no_span, measure_answer};
ghost use Rattle.span_law.specs.Stepping.{signed};

use crate::directions::{day_off, way_to};
use crate::setting::Setting;
use crate::start::Start;
use calendar::source::CalendarSource;
use span_law::unit::Unit;
use span_law::way::Way;
use timebase::fault::Fault;
use timebase::span::Span;
use zone::source::ZoneSource;

impl<Z: ZoneSource, C: CalendarSource> Setting<'_, Z, C> {
    // The date parts from one day to the day some days off, which is there.
    fn dates_to(&self, unit: Unit, from: u32, way: Way, days: u32) -> Span
        requires from { (1 ≤ from) × (from ≤ 3652059) }
        requires few { days ≤ 3652059 }
        requires first { pos 1 ≤ℤ (pos from +ℤ signed way days) }
        requires last { (pos from +ℤ signed way days) ≤ℤ pos 3652059 }
        ensures { result ≡ span_of way (parts_by ((C.CalendarSource.calendars self.now.calendar.source.now).calendar self.now.calendar.number) way from (natural (pos from +ℤ signed way days)) unit) (pos 0) }
    {
        match day_off(from, way, days) {
            Some(to) => match self.calendar.dates_between(way, from, to, unit) {
                Some(dates) => dates,
                None => unreachable(),
            },
            None => unreachable(),
        }
    }

    // The span by dates: from the start's day to the farthest day whose reach does not pass the end, and the time from that
    // reach on.
    fn span_by_dates(&self, unit: Unit, start: &Start<'_, '_, Z>, b: i64) -> Span
        requires zone { start.now.zone.now ≡ self.now.zone }
        requires known { Known ((Z.ZoneSource.zones self.now.zone.source.now).value self.now.zone.number) b }
        ensures { result ≡ measured_dates ((Z.ZoneSource.zones self.now.zone.source.now).value self.now.zone.number) start.now.instant (way_between start.now.instant b) b ((C.CalendarSource.calendars self.now.calendar.source.now).calendar self.now.calendar.number) unit }
    {
        let way = way_to(start.instant, b);
        let reached = start.farthest(way, b);
        Span {
            time: b - reached.at,
            ..self.dates_to(unit, start.local.day, way, reached.days)
        }
    }

    // The span between two instants that are there.
    fn span_from(&self, unit: Unit, start: &Start<'_, '_, Z>, b: i64) -> Span
        requires zone { start.now.zone.now ≡ self.now.zone }
        requires known { Known ((Z.ZoneSource.zones self.now.zone.source.now).value self.now.zone.number) b }
        ensures { result ≡ cond (is start.now.instant b) no_span (measured_by ((Z.ZoneSource.zones self.now.zone.source.now).value self.now.zone.number) start.now.instant (way_between start.now.instant b) b ((C.CalendarSource.calendars self.now.calendar.source.now).calendar self.now.calendar.number) unit) }
    {
        if start.instant == b {
            return Span::default();
        }
        match unit {
            Unit::Hour => Span {
                time: b - start.instant,
                ..Span::default()
            },
            _ => self.span_by_dates(unit, start, b),
        }
    }

    // The span from one instant to another by a unit; refused exactly where either is no instant of this zone's marks. Carried
    // from the first, it arrives at the second.
    pub fn measure(&self, unit: Unit, a: i64, b: i64) -> Result<Span, Fault>
        ensures value { result ≡ measure_answer ((Z.ZoneSource.zones self.now.zone.source.now).value self.now.zone.number) ((C.CalendarSource.calendars self.now.calendar.source.now).calendar self.now.calendar.number) unit a b }
        ensures accepted { Known ((Z.ZoneSource.zones self.now.zone.source.now).value self.now.zone.number) a → Known ((Z.ZoneSource.zones self.now.zone.source.now).value self.now.zone.number) b → IsOk result }
        ensures law { IfOk result (λ s. TrueSpan ((Z.ZoneSource.zones self.now.zone.source.now).value self.now.zone.number) ((C.CalendarSource.calendars self.now.calendar.source.now).calendar self.now.calendar.number) unit a b s) }
    {
        let start = Start::new(&self.zone, a)?;
        let end = self.zone.arrive(b)?;
        Ok(self.span_from(unit, &start, end))
    }
}
