// The days whose reach does not pass an instant.
ghost use Rattle.std.specs.Prelude.{◌≡◌, ◌≤◌, ◌+ℤ◌, pos, false, Ok, Err, MatchOption, MatchResult};
ghost use Rattle.calendar.specs.Calendars.{within};
ghost use Rattle.local_times.specs.Locals.{arriving, Known};
ghost use Rattle.span_law.specs.Stepping.{signed};
ghost use Rattle.span_law.specs.Measuring.{way_between, before_it, reach, days_apart};
ghost use Rattle.moves.specs.Ends.{EndDay};

use crate::directions::{day_off, distance, is_not_past, most_days};
use crate::start::Start;
use local_times::local_time::LocalTime;
use local_times::zone_at::ZoneAt;
use span_law::way::Way;
use timebase::fault::Fault;
use zone::source::ZoneSource;

// A day, by how many days off it lies, and the instant that is its reach.
#[derive(Clone, Copy)]
pub(crate) struct Reached {
    pub(crate) days: u32,
    pub(crate) at: i64,
}

impl<'a, 'z, Z: ZoneSource> Start<'a, 'z, Z> {
    // A start at an instant; refused as arriving there is.
    pub(crate) fn new(zone: &'a ZoneAt<'z, Z>, instant: i64) -> Result<Start<'a, 'z, Z>, Fault>
        ensures { MatchResult result (λ s. (s.zone.now ≡ zone.now) × (s.instant ≡ instant)) (λ e. arriving ((Z.ZoneSource.zones zone.now.source.now).value zone.now.number) instant ≡ Err e) }
    {
        let local = zone.local_time(instant)?;
        Ok(Start {
            zone,
            instant,
            local,
        })
    }

    // The start's clock time, some days off; none where there is no such day.
    fn day_off(&self, way: Way, days: u32) -> Option<LocalTime>
        requires { days ≤ 3652059 }
        ensures { MatchOption result (within (pos 1) (pos 3652059) (pos self.now.local.day +ℤ signed way days) ≡ false) (λ l. (pos l.day ≡ pos self.now.local.day +ℤ signed way days) × (l.clock ≡ self.now.local.clock) × (l.micros ≡ self.now.local.micros)) }
    {
        self.local.on_day(day_off(self.local.day, way, days)?)
    }

    // The reach of the day some days off: the start itself on its own day, and on another the meeting of its clock time.
    fn reach(&self, way: Way, days: u32) -> Result<i64, Fault>
        requires { days ≤ 3652059 }
        ensures { result ≡ reach ((Z.ZoneSource.zones self.now.zone.now.source.now).value self.now.zone.now.number) self.now.instant way days }
    {
        if days == 0 {
            return Ok(self.instant);
        }
        let local = self.day_off(way, days).ok_or(Fault::NoSuchDate)?;
        self.zone.meet(local)
    }

    // The reach, where it is there and does not pass `b`.
    fn reach_before(&self, way: Way, b: i64, days: u32) -> Option<i64>
        requires { days ≤ 3652059 }
        ensures { result ≡ before_it way b (reach ((Z.ZoneSource.zones self.now.zone.now.source.now).value self.now.zone.now.number) self.now.instant way days) }
    {
        match self.reach(way, days) {
            Ok(at) if is_not_past(way, at, b) => Some(at),
            _ => None,
        }
    }

    // The farthest day whose reach is there and does not pass `b`. No day past the first candidate has such a reach, and the
    // start's own day has, so that the walk toward it ends. It takes more than a few turns only where the zone is blank.
    pub(crate) fn farthest(&self, way: Way, b: i64) -> Reached
        requires known { Known ((Z.ZoneSource.zones self.now.zone.now.source.now).value self.now.zone.now.number) b }
        requires way { way ≡ way_between self.now.instant b }
        ensures days { result.days ≡ days_apart ((Z.ZoneSource.zones self.now.zone.now.source.now).value self.now.zone.now.number) self.now.instant way b }
        ensures reach { reach ((Z.ZoneSource.zones self.now.zone.now.source.now).value self.now.zone.now.number) self.now.instant way result.days ≡ Ok result.at }
        ensures end { EndDay way self.now.local.day result.days result.at }
    {
        let mut days = most_days(distance(way, self.local.count(), b));
        let (days, at) = 'days: loop {
            if let Some(at) = self.reach_before(way, b, days) {
                break 'days (days, at);
            }
            days -= 1;
        };
        Reached { days, at }
    }
}
