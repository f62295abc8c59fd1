// What a zone says of its seconds, as the layers above ask it.
ghost use Rattle.std.specs.Prelude.{◌≡◌, ◌<◌, ◌≤◌, ◌<ℤ◌, ◌≤ℤ◌, MatchOption};
ghost use Rattle.zone.specs.Zones.{Steady, offset_known};

use crate::zone_at::ZoneAt;
use timebase::fault::Fault;
use zone::source::ZoneSource;

impl<'z, Z: ZoneSource> ZoneAt<'z, Z> {
    // The zone of that number; none where the source has no such zone.
    pub fn new(source: &'z Z, number: usize) -> Option<ZoneAt<'z, Z>>
        ensures { MatchOption result ((Z.ZoneSource.zones source.now).count ≤ number) (λ zone. (zone.source.now ≡ source.now) × (zone.number ≡ number)) }
    {
        if number < source.count() {
            Some(ZoneAt { source, number })
        } else {
            None
        }
    }

    // The offset at a second; refused where the zone is blank.
    pub(crate) fn offset(&self, second: i64) -> Result<i64, Fault>
        ensures { result ≡ offset_known ((Z.ZoneSource.zones self.now.source.now).value self.now.number second) }
    {
        let value = self.source.value(self.number, second).unwrap();
        Ok(i64::from(value.known_offset()?))
    }

    // The end of the stretch of one value that starts at `at`, at most `end`.
    pub(crate) fn steady_until(&self, at: i64, end: i64) -> i64
        requires { at <ℤ end }
        ensures later { at <ℤ result }
        ensures within { result ≤ℤ end }
        ensures steady { Steady ((Z.ZoneSource.zones self.now.source.now).value self.now.number) at result }
    {
        self.source.change(self.number, at, end).unwrap_or(end)
    }
}
