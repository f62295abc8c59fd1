// Two sources side by side.
ghost use Rattle.std.specs.Prelude.{◌≡◌};
ghost use Rattle.side_by_side.specs.Places.{place_of};
ghost use Rattle.calendar.specs.Joining.{joined};
ghost use Rattle.calendar.specs.Joins.{joined_laws};

use crate::source::CalendarSource;
pub use side_by_side::Beside;
use side_by_side::{Place, joined_count, place_among};
use years::date::Date;

// The source that has a calendar of two side by side, and its number there. Zones have the same over their own trait: one
// trait below both would take a meaning of its own, a law that ties it to theirs, and an impl more for every source.
fn place_in<P: CalendarSource, Q: CalendarSource>(
    pair: &Beside<P, Q>,
    calendar: usize,
) -> Option<Place>
    ensures { result ≡ place_of (P.CalendarSource.calendars pair.now.first).count (Q.CalendarSource.calendars pair.now.second).count calendar }
{
    let count = pair.first.count();
    // the second counts its calendars only for a number that the first hasn't
    if calendar < count {
        return Some(Place::First(calendar));
    }
    place_among(count, pair.second.count(), calendar)
}

// The first's numbers, then the second's. Above 64 calendars in all only the first's are there. Each question has a match of
// its own: a function for the choice would take two closures each time, since the two sources differ in type, and be no
// shorter.
impl<P: CalendarSource, Q: CalendarSource> CalendarSource for Beside<P, Q> {
    ghost calendars = { λ p. joined (P.CalendarSource.calendars p.first) (Q.CalendarSource.calendars p.second) };

    ghost lawful = { λ p. joined_laws _ _ (P.CalendarSource.lawful p.first) (Q.CalendarSource.lawful p.second) };

    fn count(&self) -> usize {
        joined_count(self.first.count(), self.second.count())
    }

    fn name(&self, calendar: usize) -> Option<&[u8]> {
        match place_in(self, calendar)? {
            Place::First(k) => self.first.name(k),
            Place::Second(k) => self.second.name(k),
        }
    }

    fn first_year(&self, calendar: usize) -> Option<i32> {
        match place_in(self, calendar)? {
            Place::First(k) => self.first.first_year(k),
            Place::Second(k) => self.second.first_year(k),
        }
    }

    fn last_year(&self, calendar: usize) -> Option<i32> {
        match place_in(self, calendar)? {
            Place::First(k) => self.first.last_year(k),
            Place::Second(k) => self.second.last_year(k),
        }
    }

    fn months(&self, calendar: usize, year: i32) -> Option<u8> {
        match place_in(self, calendar)? {
            Place::First(k) => self.first.months(k, year),
            Place::Second(k) => self.second.months(k, year),
        }
    }

    fn length(&self, calendar: usize, year: i32, month: u8) -> Option<u8> {
        match place_in(self, calendar)? {
            Place::First(k) => self.first.length(k, year, month),
            Place::Second(k) => self.second.length(k, year, month),
        }
    }

    fn date(&self, calendar: usize, day: u32) -> Option<Date> {
        match place_in(self, calendar)? {
            Place::First(k) => self.first.date(k, day),
            Place::Second(k) => self.second.date(k, day),
        }
    }

    fn day(&self, calendar: usize, date: Date) -> Option<u32> {
        match place_in(self, calendar)? {
            Place::First(k) => self.first.day(k, date),
            Place::Second(k) => self.second.day(k, date),
        }
    }

    fn twin(&self, calendar: usize, year: i32, month: u8, other: i32) -> Option<u8> {
        match place_in(self, calendar)? {
            Place::First(k) => self.first.twin(k, year, month, other),
            Place::Second(k) => self.second.twin(k, year, month, other),
        }
    }
}
