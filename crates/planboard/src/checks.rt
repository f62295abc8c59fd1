// What a call checks before anything else, and what it looks up.
ghost use Rattle.std.specs.Prelude.{◌≡◌, ◌<◌, IfOk};
ghost use Rattle.board_law.specs.Boards.{on_shelf, roomy, zone_named, calendar_named, zone_of, calendar_of, There};
ghost use Rattle.local_times.specs.Locals.{arriving};
ghost use Rattle.planboard.specs.View.{sources};

use crate::board::Board;
use calendar::source::CalendarSource;
use calendar_steps::calendar_at::CalendarAt;
use local_times::zone_at::ZoneAt;
use mark_text::mark::Mark;
use moves::setting::Setting;
use names::{scan_calendar_name, scan_zone_name};
use timebase::fault::Fault;
use zone::source::ZoneSource;

// Whether a slot is on a shelf of so many; refused with which slot of the call it is.
pub(crate) fn on_shelf(slot: usize, slots: usize, which: u8) -> Result<(), Fault>
    ensures { result ≡ on_shelf slots slot which }
{
    if slot < slots {
        Ok(())
    } else {
        Err(Fault::SlotOff { slot: which })
    }
}

// Whether a buffer has the room that is asked for.
pub(crate) fn roomy(least: usize, room: usize) -> Result<(), Fault>
    ensures { result ≡ roomy least room }
{
    if room < least {
        Err(Fault::BufferSmall)
    } else {
        Ok(())
    }
}

impl<'a, Z: ZoneSource, C: CalendarSource> Board<'a, Z, C> {
    // The number of the zone that bears a name; refused where the name is out of form, or no zone bears it.
    pub(crate) fn zone_named(&self, name: &[u8]) -> Result<usize, Fault>
        ensures value { result ≡ zone_named (sources Z.ZoneSource.zones C.CalendarSource.calendars self.now) name.now }
        ensures inside { IfOk result (λ z. z < (Z.ZoneSource.zones self.now.zones.now).count) }
    {
        scan_zone_name(name)?;
        self.zones.find(name).ok_or(Fault::UnknownZone { at: 0 })
    }

    // The number of the calendar that bears a name; refused likewise.
    pub(crate) fn calendar_named(&self, name: &[u8]) -> Result<usize, Fault>
        ensures value { result ≡ calendar_named (sources Z.ZoneSource.zones C.CalendarSource.calendars self.now) name.now }
        ensures inside { IfOk result (λ k. k < (C.CalendarSource.calendars self.now.calendars.now).count) }
    {
        scan_calendar_name(name)?;
        self.calendars
            .find(name)
            .ok_or(Fault::UnknownCalendar { at: 0 })
    }

    // A zone that the source has.
    pub(crate) fn zone_at(&self, zone: usize) -> ZoneAt<'a, Z>
        requires { zone < (Z.ZoneSource.zones self.now.zones.now).count }
        ensures { (result.source.now ≡ self.now.zones.now) × (result.number ≡ zone) }
    {
        match ZoneAt::new(self.zones, zone) {
            Some(zone) => zone,
            None => unreachable(),
        }
    }

    // Where a mark is moved: its zone and its calendar.
    pub(crate) fn setting_of(&self, mark: &Mark) -> Setting<'a, Z, C>
        requires { There (sources Z.ZoneSource.zones C.CalendarSource.calendars self.now) mark.now }
        ensures zone { (Z.ZoneSource.zones result.zone.source.now).value result.zone.number ≡ zone_of (sources Z.ZoneSource.zones C.CalendarSource.calendars self.now) mark.now }
        ensures calendar { (C.CalendarSource.calendars result.calendar.source.now).calendar result.calendar.number ≡ calendar_of (sources Z.ZoneSource.zones C.CalendarSource.calendars self.now) mark.now }
    {
        let zone = self.zone_at(usize::from(mark.zone));
        match CalendarAt::new(self.calendars, usize::from(mark.calendar)) {
            Some(calendar) => Setting { zone, calendar },
            None => unreachable(),
        }
    }
}
