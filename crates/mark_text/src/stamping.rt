// What the text of a mark shows, over two sources.
ghost use Rattle.std.specs.Prelude.{◌≡◌, ◌≤◌, ◌≤ℤ◌, pos, MatchOption};
ghost use Rattle.iso8601.specs.Gregorian.{gregorian_years};
ghost use Rattle.local_times.specs.Locals.{second_of, Known, Shows};
ghost use Rattle.mark_text.specs.Marks.{IsThere, Lowest};
ghost use Rattle.mark_text.specs.Fields.{ShiftFits};
ghost use Rattle.mark_text.specs.Shown.{ShownBy};
ghost use Rattle.years.specs.Days.{HasDate};
ghost use Rattle.zone.specs.Zones.{offset};

use crate::mark::Mark;
use calendar::source::CalendarSource;
use iso8601::Iso8601;
use local_times::local_time::LocalTime;
use local_times::zone_at::ZoneAt;
use mark_writing::stamp::Stamp;
use years::date::Date;
use years::days::date_of_day;
use zone::source::ZoneSource;

// The name of a zone; none where its number isn't the lowest that bears it.
fn zone_name<Z: ZoneSource>(zones: &Z, zone: usize) -> Option<&[u8]>
    ensures { MatchOption result (Lowest (Z.ZoneSource.zones zones.now).name (Z.ZoneSource.zones zones.now).count ((Z.ZoneSource.zones zones.now).name zone) zone → ⊥) (λ n. Lowest (Z.ZoneSource.zones zones.now).name (Z.ZoneSource.zones zones.now).count ((Z.ZoneSource.zones zones.now).name zone) zone × (n.now ≡ (Z.ZoneSource.zones zones.now).name zone)) }
{
    let name = zones.name(zone)?;
    let lowest = zones.find(name)?;
    if lowest == zone { Some(name) } else { None }
}

// The name of a calendar; none where its number isn't the lowest that bears it.
fn calendar_name<C: CalendarSource>(calendars: &C, calendar: usize) -> Option<&[u8]>
    ensures { MatchOption result (Lowest (C.CalendarSource.calendars calendars.now).name (C.CalendarSource.calendars calendars.now).count ((C.CalendarSource.calendars calendars.now).name calendar) calendar → ⊥) (λ n. Lowest (C.CalendarSource.calendars calendars.now).name (C.CalendarSource.calendars calendars.now).count ((C.CalendarSource.calendars calendars.now).name calendar) calendar × (n.now ≡ (C.CalendarSource.calendars calendars.now).name calendar)) }
{
    let name = calendars.name(calendar)?;
    let lowest = calendars.find(name)?;
    if lowest == calendar { Some(name) } else { None }
}

// The Gregorian date of a local time's day.
fn date_of(local: LocalTime) -> Date
    ensures date { HasDate gregorian_years local.day result }
    ensures year { (pos 1 ≤ℤ result.year) × (result.year ≤ℤ pos 9999) }
    ensures month { result.month ≤ 12 }
    ensures day { result.day ≤ 31 }
{
    match date_of_day(&Iso8601, local.day) {
        Some(date) => date,
        None => unreachable(),
    }
}

// The offset of a zone of a source at an instant, in seconds; none where it has none, or the instant is out of range.
fn shift_at<Z: ZoneSource>(zone: &ZoneAt<'_, Z>, instant: i64) -> Option<i32>
    ensures { MatchOption result (Known ((Z.ZoneSource.zones zone.now.source.now).value zone.now.number) instant → ⊥) (λ o. Known ((Z.ZoneSource.zones zone.now.source.now).value zone.now.number) instant × (o ≡ offset ((Z.ZoneSource.zones zone.now.source.now).value zone.now.number (second_of instant))) × ShiftFits o) }
{
    match zone.offset_at(instant) {
        Ok(offset) => Some(offset as i32),
        Err(_) => None,
    }
}

// The local time of an instant; none likewise.
fn local_at<Z: ZoneSource>(zone: &ZoneAt<'_, Z>, instant: i64) -> Option<LocalTime>
    ensures { MatchOption result (Known ((Z.ZoneSource.zones zone.now.source.now).value zone.now.number) instant → ⊥) (λ l. Shows ((Z.ZoneSource.zones zone.now.source.now).value zone.now.number) instant l) }
{
    match zone.local_time(instant) {
        Ok(local) => Some(local),
        Err(_) => None,
    }
}

// The offset of a mark's zone at its instant, in seconds; none where the mark isn't there.
pub(crate) fn offset_of<Z: ZoneSource, C: CalendarSource>(
    zones: &Z,
    calendars: &C,
    mark: &Mark,
) -> Option<i32>
    ensures { MatchOption result (IsThere (Z.ZoneSource.zones zones.now) (C.CalendarSource.calendars calendars.now) mark.now → ⊥) (λ o. IsThere (Z.ZoneSource.zones zones.now) (C.CalendarSource.calendars calendars.now) mark.now × (o ≡ offset ((Z.ZoneSource.zones zones.now).value mark.now.zone (second_of mark.now.instant)))) }
{
    let number = usize::from(mark.zone);
    zone_name(zones, number)?;
    calendar_name(calendars, usize::from(mark.calendar))?;
    let zone = ZoneAt::new(zones, number)?;
    shift_at(&zone, mark.instant)
}

// What the text of a mark shows; none where the mark isn't there.
pub(crate) fn stamp_of<'s, Z: ZoneSource, C: CalendarSource>(
    zones: &'s Z,
    calendars: &'s C,
    mark: &Mark,
) -> Option<Stamp<'s>>
    ensures { MatchOption result (IsThere (Z.ZoneSource.zones zones.now) (C.CalendarSource.calendars calendars.now) mark.now → ⊥) (λ s. IsThere (Z.ZoneSource.zones zones.now) (C.CalendarSource.calendars calendars.now) mark.now × ShownBy (Z.ZoneSource.zones zones.now) (C.CalendarSource.calendars calendars.now) mark.now s) }
{
    let number = usize::from(mark.zone);
    let name = zone_name(zones, number)?;
    let calendar = calendar_name(calendars, usize::from(mark.calendar))?;
    let zone = ZoneAt::new(zones, number)?;
    let local = local_at(&zone, mark.instant)?;
    let offset = shift_at(&zone, mark.instant)?;
    let date = date_of(local);
    Some(Stamp {
        year: date.year as u32,
        month: u32::from(date.month),
        day: u32::from(date.day),
        hour: local.clock / 3_600,
        minute: local.clock / 60 % 60,
        second: local.clock % 60,
        micros: local.micros,
        offset,
        zone: name,
        calendar,
    })
}
