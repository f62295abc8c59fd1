// Writing a mark.
ghost use Rattle.std.specs.Prelude.{◌≡◌, Err, Decides};
ghost use Rattle.timebase.specs.declared.fault.Fault.TheVariants.{SlotEmpty};
ghost use Rattle.mark_text.specs.Marks.{IsThere, mark_there};
ghost use Rattle.mark_text.specs.Shown.{Written, PutsMark};

use crate::mark::Mark;
use crate::stamping::{offset_of, stamp_of};
use calendar::source::CalendarSource;
use mark_writing::write::{put_stamp, write_stamp};
use timebase::fault::Fault;
use writing::Writer;
use zone::source::ZoneSource;

// Whether a mark is there: whether a text can enter it.
pub fn is_there<Z: ZoneSource, C: CalendarSource>(zones: &Z, calendars: &C, mark: &Mark) -> bool
    ensures value { result ≡ mark_there (Z.ZoneSource.zones zones.now) (C.CalendarSource.calendars calendars.now) mark.now }
    ensures there { Decides result (IsThere (Z.ZoneSource.zones zones.now) (C.CalendarSource.calendars calendars.now) mark.now) }
{
    offset_of(zones, calendars, mark).is_some()
}

// Puts the canonical text of a mark, as much of it as fits: a piece of a longer text. The answer is whether the mark is
// there; nothing is put where it isn't.
pub fn put_mark<Z: ZoneSource, C: CalendarSource>(
    writer: &mut Writer,
    zones: &Z,
    calendars: &C,
    mark: &Mark,
) -> bool
    ensures value { result ≡ mark_there (Z.ZoneSource.zones zones.now) (C.CalendarSource.calendars calendars.now) mark.now }
    ensures absent { (IsThere (Z.ZoneSource.zones zones.now) (C.CalendarSource.calendars calendars.now) mark.now → ⊥) → writer.new ≡ writer.old }
    ensures there { IsThere (Z.ZoneSource.zones zones.now) (C.CalendarSource.calendars calendars.now) mark.now → PutsMark (Z.ZoneSource.zones zones.now) (C.CalendarSource.calendars calendars.now) mark.now writer.old writer.new }
{
    let Some(stamp) = stamp_of(zones, calendars, mark) else {
        return false;
    };
    put_stamp(writer, &stamp);
    true
}

// Writes the canonical text of a mark at the start of the buffer, and answers its length. A mark that isn't there is refused
// as the empty slot that it is, by 2, and then a buffer under 96 bytes by 13; nothing is written then.
pub fn write_mark<Z: ZoneSource, C: CalendarSource>(
    zones: &Z,
    calendars: &C,
    mark: &Mark,
    out: &mut [u8],
) -> Result<usize, Fault>
    ensures absent { (IsThere (Z.ZoneSource.zones zones.now) (C.CalendarSource.calendars calendars.now) mark.now → ⊥) → (result ≡ Err (SlotEmpty 0)) × (out.new ≡ out.old) }
    ensures there { IsThere (Z.ZoneSource.zones zones.now) (C.CalendarSource.calendars calendars.now) mark.now → Written (Z.ZoneSource.zones zones.now) (C.CalendarSource.calendars calendars.now) mark.now out.old result out.new }
{
    let stamp = stamp_of(zones, calendars, mark).ok_or(Fault::SlotEmpty { slot: 0 })?;
    write_stamp(&stamp, out)
}
