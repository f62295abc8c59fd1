// What the text of a mark shows.
ghost use Rattle.std.specs.Prelude.{◌<◌, ◌≤◌, length, unsigned_abs};

// A local date and clock time of the Gregorian calendar, the offset from UTC in seconds, and the names of the zone and of
// the mark's own calendar. Each number has as many digits as the text has for it; whether there is such a date and such a
// clock time is not asked.
#[derive(Clone, Copy)]
pub struct Stamp<'s> {
    pub year: u32,
    pub month: u32,
    pub day: u32,
    pub hour: u32,
    pub minute: u32,
    pub second: u32,
    pub micros: u32,
    pub offset: i32,
    pub zone: &'s [u8],
    pub calendar: &'s [u8],
    ghost year_high: { year < 10000 },
    ghost month_high: { month < 100 },
    ghost day_high: { day < 100 },
    ghost hour_high: { hour < 100 },
    ghost minute_high: { minute < 100 },
    ghost second_high: { second < 100 },
    ghost micros_high: { micros < 1000000 },
    ghost offset_high: { unsigned_abs offset < 86400 },
    ghost zone_short: { length zone.now ≤ 32 },
    ghost calendar_short: { length calendar.now ≤ 16 },
}
