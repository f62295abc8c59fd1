// The zone and the calendar that a text names.
ghost use Rattle.std.specs.Prelude.{◌≡◌, ◌≤◌, length, IfOk, IfSome};
ghost use Rattle.mark_trip.specs.RoundTrip.{part_of};
ghost use Rattle.mark_text.specs.Marks.{Lowest};
ghost use Rattle.mark_text.specs.Reading.{zone_said, calendar_meant, calendar_place, calendar_said};

use calendar::source::CalendarSource;
use mark_form::layout::Part;
use timebase::fault::Fault;
use zone::source::ZoneSource;

// The bytes of a part of a text.
fn part_of<'t>(text: &'t [u8], part: Part) -> &'t [u8]
    requires rises { part.from ≤ part.to }
    requires inside { part.to ≤ length text.now }
    ensures { result.now ≡ part_of text.now part }
{
    &text[part.from..part.to]
}

// The number of the zone that bears the name in brackets; refused at the name's first byte.
pub(crate) fn find_zone<Z: ZoneSource>(zones: &Z, text: &[u8], name: Part) -> Result<usize, Fault>
    requires rises { name.from ≤ name.to }
    requires inside { name.to ≤ length text.now }
    ensures value { result ≡ zone_said (Z.ZoneSource.zones zones.now) text.now name }
    ensures lowest { IfOk result (λ z. Lowest (Z.ZoneSource.zones zones.now).name (Z.ZoneSource.zones zones.now).count (part_of text.now name) z) }
{
    let found = zones.find(part_of(text, name));
    found.ok_or(Fault::UnknownZone { at: name.from })
}

// The name of the calendar that a text means: the value of the first `u-ca`, or `iso8601` where there is none.
fn calendar_name<'t>(text: &'t [u8], value: Option<Part>) -> &'t [u8]
    requires { IfSome value (λ p. (p.from ≤ p.to) × (p.to ≤ length text.now)) }
    ensures { result.now ≡ calendar_meant text.now value }
{
    match value {
        Some(value) => part_of(text, value),
        None => b"iso8601",
    }
}

// Where that name stands: at the value's first byte, or past the text.
fn calendar_place(text: &[u8], value: Option<Part>) -> usize
    ensures { result ≡ calendar_place text.now value }
{
    match value {
        Some(value) => value.from,
        None => text.len(),
    }
}

// The number of the calendar that a text means; refused at the value's first byte, or at the text's length.
pub(crate) fn find_calendar<C: CalendarSource>(
    calendars: &C,
    text: &[u8],
    value: Option<Part>,
) -> Result<usize, Fault>
    requires { IfSome value (λ p. (p.from ≤ p.to) × (p.to ≤ length text.now)) }
    ensures value { result ≡ calendar_said (C.CalendarSource.calendars calendars.now) text.now value }
    ensures lowest { IfOk result (λ k. Lowest (C.CalendarSource.calendars calendars.now).name (C.CalendarSource.calendars calendars.now).count (calendar_meant text.now value) k) }
{
    let found = calendars.find(calendar_name(text, value));
    found.ok_or(Fault::UnknownCalendar {
        at: calendar_place(text, value),
    })
}
