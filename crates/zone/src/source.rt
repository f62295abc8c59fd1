// What a zone source answers.
ghost use Rattle.std.specs.Prelude.{◌≡◌, Decides};
ghost use Rattle.zone.specs.Zones.{Zones, ZonesLaws, Bears, NameIs, FoundIs, ValueIs, ChangeIs};

use crate::value::Value;

// A table of at most 64 zones, numbered from 0. The meaning is the ghost member: each answer is told by it. A number that
// is not there is answered as none.
pub trait ZoneSource {
    ghost zones: { Self → Zones };

    fn count(&self) -> usize
        ensures { result ≡ (zones self.now).count };

    fn name(&self, zone: usize) -> Option<&[u8]>
        ensures { NameIs (zones self.now) zone result };

    // The lowest number that bears a name. (Calendars say the same over their own trait: see `beside`.)
    fn find(&self, name: &[u8]) -> Option<usize>
        ensures { FoundIs (zones self.now) name.now result }
    {
        (0..self.count()).find(
            |&k|
                ensures { Decides result (Bears (zones self.entry.now) k name.entry.now) }
            { self.name(k) == Some(name) },
        )
    }

    // What a zone says of a second.
    fn value(&self, zone: usize, second: i64) -> Option<Value>
        ensures { ValueIs (zones self.now) zone second result };

    // The first second after `after` and before `before` whose value differs from that of the second before it.
    fn change(&self, zone: usize, after: i64, before: i64) -> Option<i64>
        ensures { ChangeIs (zones self.now) zone after before result };

    ghost lawful: { (s : Self) → ZonesLaws (zones s) };
}
