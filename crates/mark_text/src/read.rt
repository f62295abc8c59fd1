// Reading a mark.
ghost use Rattle.std.specs.Prelude.{◌≡◌, ◌<◌, Ok, Err, IfOk, IfErr};
ghost use Rattle.local_times.specs.Locals.{offset_at};
ghost use Rattle.mark_text.specs.Meanings.{Says, FormTold};
ghost use Rattle.mark_text.specs.Reading.{read_answer, tags_said, agreed};
ghost use Rattle.mark_text.specs.Refusals.{Refused};
ghost use Rattle.timebase.specs.declared.fault.Fault.{Fault as AnyFault};

use crate::fields::{instant_of, read_fields};
use crate::lookup::{find_calendar, find_zone};
use crate::mark::Mark;
use calendar::source::CalendarSource;
use local_times::zone_at::ZoneAt;
use mark_form::draft::Said;
use mark_form::layout::Tags;
use mark_form::read::read_draft;
use timebase::fault::Fault;
use zone::source::ZoneSource;

// Whether no tag is refused; else the first that is, at its `[`.
fn check_tags(tags: Tags) -> Result<(), Fault>
    ensures { result ≡ tags_said tags }
{
    match tags.refused {
        Some(at) => Err(Fault::CriticalTag { at }),
        None => Ok(()),
    }
}

// Whether an offset that is said is the zone's; else it is refused at its sign.
fn check_offset(shift: Option<i32>, offset: i64, said: Option<Said>) -> Result<(), Fault>
    ensures { result ≡ agreed shift offset said }
{
    match (shift, said) {
        (Some(shift), Some(said)) if i64::from(shift) != offset => {
            Err(Fault::OffsetDenied { at: said.sign })
        }
        _ => Ok(()),
    }
}

// The offset of a zone of a source at an instant; refused as arriving there is.
fn offset_at<Z: ZoneSource>(zones: &Z, zone: usize, instant: i64) -> Result<i64, Fault>
    requires { zone < (Z.ZoneSource.zones zones.now).count }
    ensures { result ≡ offset_at ((Z.ZoneSource.zones zones.now).value zone) instant }
{
    match ZoneAt::new(zones, zone) {
        Some(zone) => zone.offset_at(instant),
        None => unreachable(),
    }
}

// The mark that a text says, or why it says none.
fn mark_of<Z: ZoneSource, C: CalendarSource>(
    zones: &Z,
    calendars: &C,
    text: &[u8],
) -> Result<Mark, Fault>
    ensures { result ≡ read_answer (Z.ZoneSource.zones zones.now) (C.CalendarSource.calendars calendars.now) text.now }
{
    let draft = read_draft(text)?;
    let fields = read_fields(&draft)?;
    check_tags(draft.tags)?;
    let zone = find_zone(zones, text, draft.name)?;
    let calendar = find_calendar(calendars, text, draft.tags.calendar)?;
    let instant = instant_of(&fields);
    let offset = offset_at(zones, zone, instant)?;
    check_offset(fields.offset, offset, draft.offset)?;
    Ok(Mark {
        instant,
        zone: zone as u8,
        calendar: calendar as u8,
    })
}

// The mark that a text says, over a zone source and a calendar source, or why it says none. A text is accepted exactly if it says
// a mark, and else refused by exactly what is wrong first: before all its form, at the length of its longest viable prefix.
pub fn read_mark<Z: ZoneSource, C: CalendarSource>(
    zones: &Z,
    calendars: &C,
    text: &[u8],
) -> Result<Mark, Fault>
    ensures value { result ≡ read_answer (Z.ZoneSource.zones zones.now) (C.CalendarSource.calendars calendars.now) text.now }
    ensures form { FormTold text.now result }
    ensures meaning { IfOk result (Says (Z.ZoneSource.zones zones.now) (C.CalendarSource.calendars calendars.now) text.now) }
    ensures told { (m : Mark) → Says (Z.ZoneSource.zones zones.now) (C.CalendarSource.calendars calendars.now) text.now m → result ≡ Ok m }
    ensures refused { IfErr result (Refused (Z.ZoneSource.zones zones.now) (C.CalendarSource.calendars calendars.now) text.now) }
    ensures refuses { (fault : AnyFault) → Refused (Z.ZoneSource.zones zones.now) (C.CalendarSource.calendars calendars.now) text.now fault → result ≡ Err fault }
{
    mark_of(zones, calendars, text)
}
