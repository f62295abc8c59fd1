// Carrying an instant by a span.
ghost use Rattle.std.specs.Prelude.{◌≡◌, ◌+ℤ◌, Some, None, pos, MatchOption};
ghost use Rattle.local_times.specs.Locals.{arriving};
ghost use Rattle.span_law.specs.Carrying.{no_date_parts, carry_answer};
ghost use Rattle.span_law.specs.Stepping.{day_on};

use crate::setting::Setting;
use crate::start::Start;
use calendar::source::CalendarSource;
use local_times::local_time::LocalTime;
use local_times::zone_at::ZoneAt;
use timebase::fault::Fault;
use timebase::span::Span;
use zone::source::ZoneSource;

fn has_no_date_parts(span: &Span) -> bool
    ensures { result ≡ no_date_parts span.now }
{
    span.years == 0 && span.months == 0 && span.weeks == 0 && span.days == 0
}

// The instant a time later; refused as arriving there is.
fn arrive_after<Z: ZoneSource>(zone: &ZoneAt<'_, Z>, instant: i64, time: i64) -> Result<i64, Fault>
    ensures { result ≡ arriving ((Z.ZoneSource.zones zone.now.source.now).value zone.now.number) (instant +ℤ time) }
{
    match instant.checked_add(time) {
        Some(sum) => zone.arrive(sum),
        None => Err(Fault::InstantOut),
    }
}

impl<Z: ZoneSource, C: CalendarSource> Setting<'_, Z, C> {
    // The start's clock time on the day after the date parts of a span; none where a year, the cut date or the day isn't there.
    fn local_after(&self, local: LocalTime, span: &Span) -> Option<LocalTime>
        ensures { MatchOption result (day_on ((C.CalendarSource.calendars self.now.calendar.source.now).calendar self.now.calendar.number) local.day span.now ≡ None) (λ l. (day_on ((C.CalendarSource.calendars self.now.calendar.source.now).calendar self.now.calendar.number) local.day span.now ≡ Some (pos l.day)) × (l.clock ≡ local.clock) × (l.micros ≡ local.micros)) }
    {
        local.on_day(self.calendar.day_after(local.day, span)?)
    }

    // The instant that a span leads to from another, or why it leads to none: the start is no instant of this zone, a year, the
    // cut date or the day isn't there, the zone is blank where the clock time would be met, or the end is no instant of it.
    pub fn carry(&self, instant: i64, span: &Span) -> Result<i64, Fault>
        ensures { result ≡ carry_answer ((Z.ZoneSource.zones self.now.zone.source.now).value self.now.zone.number) ((C.CalendarSource.calendars self.now.calendar.source.now).calendar self.now.calendar.number) instant span.now }
    {
        let start = Start::new(&self.zone, instant)?;
        if has_no_date_parts(span) {
            return arrive_after(&self.zone, instant, span.time);
        }
        let local = self
            .local_after(start.local, span)
            .ok_or(Fault::NoSuchDate)?;
        let met = self.zone.meet(local)?;
        arrive_after(&self.zone, met, span.time)
    }
}
