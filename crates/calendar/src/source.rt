// What a calendar source answers.
ghost use Rattle.std.specs.Prelude.{◌≡◌, Decides};
ghost use Rattle.calendar.specs.Calendars.{Calendars, CalendarsLaws, first_of, last_of, months_of, length_of, date_of, day_of, twin_of, Bears, FoundIs, NameIs};

use side_by_side::ENTRIES_MOST;
use years::date::Date;

// The most calendars of a source.
pub const CALENDARS_MOST: usize = ENTRIES_MOST;

// A table of calendars, numbered from 0. The meaning is the ghost member: each answer is told by it. A number, year, month,
// day or date that is not there is answered as none.
pub trait CalendarSource {
    ghost calendars: { Self → Calendars };

    fn count(&self) -> usize
        ensures { result ≡ (calendars self.now).count };

    fn name(&self, calendar: usize) -> Option<&[u8]>
        ensures { NameIs (calendars self.now) calendar result };

    // The lowest number that bears a name. (Zones say the same over their own trait: see `beside`.)
    fn find(&self, name: &[u8]) -> Option<usize>
        ensures { FoundIs (calendars self.now) name.now result }
    {
        (0..self.count()).find(
            |&k|
                ensures { Decides result (Bears (calendars self.entry.now) k name.entry.now) }
            { self.name(k) == Some(name) },
        )
    }

    fn first_year(&self, calendar: usize) -> Option<i32>
        ensures { result ≡ first_of (calendars self.now) calendar };

    fn last_year(&self, calendar: usize) -> Option<i32>
        ensures { result ≡ last_of (calendars self.now) calendar };

    fn months(&self, calendar: usize, year: i32) -> Option<u8>
        ensures { result ≡ months_of (calendars self.now) calendar year };

    fn length(&self, calendar: usize, year: i32, month: u8) -> Option<u8>
        ensures { result ≡ length_of (calendars self.now) calendar year month };

    fn date(&self, calendar: usize, day: u32) -> Option<Date>
        ensures { result ≡ date_of (calendars self.now) calendar day };

    fn day(&self, calendar: usize, date: Date) -> Option<u32>
        ensures { result ≡ day_of (calendars self.now) calendar date };

    // The month of the year `other` that is the twin of a month of `year`.
    fn twin(&self, calendar: usize, year: i32, month: u8, other: i32) -> Option<u8>
        ensures { result ≡ twin_of (calendars self.now) calendar year month other };

    ghost lawful: { (s : Self) → CalendarsLaws (calendars s) };
}
