// Where instants are moved.

use calendar::source::CalendarSource;
use calendar_steps::calendar_at::CalendarAt;
use local_times::zone_at::ZoneAt;
use zone::source::ZoneSource;

// A zone and a calendar in which instants are carried by spans, and spans are measured between them.
#[derive(Drop)]
pub struct Setting<'s, Z: ZoneSource, C: CalendarSource> {
    pub zone: ZoneAt<'s, Z>,
    pub calendar: CalendarAt<'s, C>,
}
