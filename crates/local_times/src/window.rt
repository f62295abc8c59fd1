// The walk through the window around a local time, one stretch of one offset after another.
ghost use Rattle.std.specs.Prelude.{◌≡◌, ◌≤ℤ◌, pos, negsuc, IfOk};
ghost use Rattle.local_times.specs.Meeting.{meeting, Near};
ghost use Rattle.local_times.specs.Meets.{Meets};
ghost use Rattle.local_times.specs.Walk.{holds_in, land_of, LocalFits, OffsetFits};

use crate::landing::Landing;
use crate::zone_at::ZoneAt;
use timebase::fault::Fault;
use zone::source::ZoneSource;

// Seconds from `at` up to `next`, which all have `offset`; the second before them has `previous`.
#[derive(Clone, Copy)]
struct Stretch {
    at: i64,
    next: i64,
    offset: i64,
    previous: i64,
}

// Whether `i` lies from `at` up to `next`.
fn holds(at: i64, i: i64, next: i64) -> bool
    ensures { result ≡ holds_in at i next }
{
    at <= i && i < next
}

// The landing of a walk after one stretch more.
fn land(landing: Landing, local: i64, stretch: Stretch) -> Landing
    requires local { LocalFits local }
    requires offset { OffsetFits stretch.offset }
    requires previous { OffsetFits stretch.previous }
    ensures { result ≡ land_of local stretch.at stretch.next stretch.offset stretch.previous landing }
{
    let i = local - stretch.offset;
    let hit = holds(stretch.at, i, stretch.next);
    match landing {
        Landing::Hit(k) => Landing::Hit(k),
        Landing::Gap(_) if hit => Landing::Hit(i),
        Landing::Gap(k) => Landing::Gap(k),
        Landing::Before if hit => Landing::Hit(i),
        Landing::Before if i < stretch.at => Landing::Gap(local - stretch.previous),
        Landing::Before => Landing::Before,
    }
}

impl<Z: ZoneSource> ZoneAt<'_, Z> {
    // The second at which a local time, in seconds, is met. The walk goes on past a hit, since a blank anywhere in the window
    // refuses.
    pub(crate) fn meet_second(&self, local: i64) -> Result<i64, Fault>
        requires { LocalFits local }
        ensures value { result ≡ meeting ((Z.ZoneSource.zones self.now.source.now).value self.now.number) local }
        ensures law { Meets ((Z.ZoneSource.zones self.now.source.now).value self.now.number) local result }
        ensures near { IfOk result (λ i. Near local i) }
    {
        let end = local + 86_400;
        let mut at = local - 86_399;
        let mut previous = 0;
        let mut landing = Landing::Before;
        while at < end {
            let offset = self.offset(at)?;
            let next = self.steady_until(at, end);
            landing = land(
                landing,
                local,
                Stretch {
                    at,
                    next,
                    offset,
                    previous,
                },
            );
            previous = offset;
            at = next;
        }
        match landing {
            Landing::Hit(i) | Landing::Gap(i) => Ok(i),
            Landing::Before => unreachable(),
        }
    }
}
