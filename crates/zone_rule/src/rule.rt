// What one zone says of every second.
ghost use Rattle.std.specs.Prelude.{◌≡◌, ℤ};
ghost use Rattle.zone.specs.Zones.{Zone, SoundValue, FirstChange};

use zone::value::Value;

// One zone by what it says of every second, with neither a name nor an end: `NamedZone` makes a source of it.
pub trait ZoneRule {
    ghost told: { Self → Zone };

    fn value(&self, second: i64) -> Value
        ensures { result ≡ told self.now second };

    // The first second after `after` and before `before` whose value differs from that of the second before it.
    fn change(&self, after: i64, before: i64) -> Option<i64>
        ensures { FirstChange (told self.now) after before result };

    // Every value is one that a zone may have.
    ghost sound: { (r : Self) (s : ℤ) → SoundValue (told r s) };
}
