// Two zone sources side by side.
ghost use Rattle.std.specs.Prelude.{◌≡◌};
ghost use Rattle.side_by_side.specs.Places.{place_of};
ghost use Rattle.zone.specs.Joining.{joined};
ghost use Rattle.zone.specs.Joins.{joined_laws};

use crate::depth::{deep_change, deep_value};
use crate::source::ZoneSource;
use crate::value::Value;
pub use side_by_side::Beside;
use side_by_side::{Place, joined_count, place_among};

// The source that has a zone of two side by side, and its number there. Calendars have the same over their own trait: one
// trait below both would take a meaning of its own, a law that ties it to theirs, and an impl more for every source.
fn place_in<P: ZoneSource, Q: ZoneSource>(pair: &Beside<P, Q>, zone: usize) -> Option<Place>
    ensures { result ≡ place_of (P.ZoneSource.zones pair.now.first).count (Q.ZoneSource.zones pair.now.second).count zone }
{
    place_among(pair.first.count(), pair.second.count(), zone)
}

// The first's numbers, then the second's. Above 64 zones in all only the first's are there. A blank of either is one deeper
// here. Each question has a match of its own: a function for the choice would take two closures each time, since the two
// sources differ in type, and be no shorter.
impl<P: ZoneSource, Q: ZoneSource> ZoneSource for Beside<P, Q> {
    ghost zones = { λ p. joined (P.ZoneSource.zones p.first) (Q.ZoneSource.zones p.second) };

    ghost lawful = { λ p. joined_laws _ _ (P.ZoneSource.lawful p.first) (Q.ZoneSource.lawful p.second) };

    fn count(&self) -> usize {
        joined_count(self.first.count(), self.second.count())
    }

    fn name(&self, zone: usize) -> Option<&[u8]> {
        match place_in(self, zone)? {
            Place::First(k) => self.first.name(k),
            Place::Second(k) => self.second.name(k),
        }
    }

    fn value(&self, zone: usize, second: i64) -> Option<Value> {
        match place_in(self, zone)? {
            Place::First(k) => deep_value(&self.first, k, second),
            Place::Second(k) => deep_value(&self.second, k, second),
        }
    }

    fn change(&self, zone: usize, after: i64, before: i64) -> Option<i64> {
        match place_in(self, zone)? {
            Place::First(k) => deep_change(&self.first, k, after, before),
            Place::Second(k) => deep_change(&self.second, k, after, before),
        }
    }
}
