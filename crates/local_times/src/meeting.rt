// Local times of instants, and the meeting of a local time with a zone.
ghost use Rattle.std.specs.Prelude.{◌≡◌, ◌≤◌, false, ◌+ℤ◌, ◌*ℤ◌, ◌≤ℤ◌, pos, negsuc, Err, IfOk, MatchResult, MatchOption};
ghost use Rattle.local_times.specs.Locals.{offset_at, arriving, count_of, second_of, met_at, is_local_time, Shows, MeetsAt};
ghost use Rattle.local_times.specs.Meeting.{Near};
ghost use Rattle.local_times.specs.Walk.{LocalFits};

use crate::local_time::LocalTime;
use crate::zone_at::ZoneAt;
use timebase::divisor::Divisor;
use timebase::fault::Fault;
use timebase::instant::is_instant;
use timebase::splits::floor_split;
use zone::source::ZoneSource;

// The day number of 1970-01-01.
pub const EPOCH_DAY: i64 = 719_163;

// The number of the last day, and the last second of a day and microsecond of a second.
const DAY_LAST: u32 = 3_652_059;

const CLOCK_LAST: u32 = 86_399;

const MICROS_LAST: u32 = 999_999;

impl LocalTime {
    // The local time of a day number and a clock time; none where there is no such day or clock time.
    pub fn new(day: u32, clock: u32, micros: u32) -> Option<LocalTime>
        ensures { MatchOption result (is_local_time day clock micros ≡ false) (λ l. (l.day ≡ day) × (l.clock ≡ clock) × (l.micros ≡ micros)) }
    {
        if (1..=DAY_LAST).contains(&day) && clock <= CLOCK_LAST && micros <= MICROS_LAST {
            Some(LocalTime { day, clock, micros })
        } else {
            None
        }
    }

    // The same clock time of another day; none where there is no such day.
    pub fn on_day(self, day: u32) -> Option<LocalTime>
        ensures { MatchOption result (is_local_time day self.clock self.micros ≡ false) (λ l. (l.day ≡ day) × (l.clock ≡ self.clock) × (l.micros ≡ self.micros)) }
    {
        LocalTime::new(day, self.clock, self.micros)
    }

    // The seconds from 1970-01-01 to this local time, as they would be in UTC.
    fn seconds(self) -> i64
        ensures value { result ≡ count_of (pos self.day) self.clock }
        ensures fits { LocalFits result }
    {
        (i64::from(self.day) - EPOCH_DAY) * 86_400 + i64::from(self.clock)
    }

    // The microseconds from 1970-01-01 to this local time, as they would be in UTC.
    pub fn count(self) -> i64
        ensures { result ≡ (count_of (pos self.day) self.clock *ℤ pos 1000000) +ℤ pos self.micros }
    {
        instant_of(self.seconds(), self.micros)
    }
}

// The instant of a second and the microseconds into it.
fn instant_of(second: i64, micros: u32) -> i64
    requires second { (negsuc 1000000999999 ≤ℤ second) × (second ≤ℤ pos 1000001000000) }
    requires micros { micros ≤ 999999 }
    ensures { result ≡ (second *ℤ pos 1000000) +ℤ pos micros }
{
    second * 1_000_000 + i64::from(micros)
}

impl<Z: ZoneSource> ZoneAt<'_, Z> {
    // The offset at an instant; refused outside the range of instants, and where the zone is blank.
    pub fn offset_at(&self, instant: i64) -> Result<i64, Fault>
        ensures { result ≡ offset_at ((Z.ZoneSource.zones self.now.source.now).value self.now.number) instant }
    {
        if !is_instant(instant) {
            return Err(Fault::InstantOut);
        }
        let (second, _) = floor_split(instant, Divisor::MICROSECONDS_A_SECOND);
        self.offset(second)
    }

    // The instant itself, where it lies in range and the zone has an offset there.
    pub fn arrive(&self, instant: i64) -> Result<i64, Fault>
        ensures { result ≡ arriving ((Z.ZoneSource.zones self.now.source.now).value self.now.number) instant }
    {
        let _offset = self.offset_at(instant)?;
        Ok(instant)
    }

    // The local time of an instant; refused as arriving at it is.
    pub fn local_time(&self, instant: i64) -> Result<LocalTime, Fault>
        ensures { MatchResult result (λ l. Shows ((Z.ZoneSource.zones self.now.source.now).value self.now.number) instant l) (λ e. arriving ((Z.ZoneSource.zones self.now.source.now).value self.now.number) instant ≡ Err e) }
    {
        let offset = self.offset_at(instant)?;
        let (second, micros) = floor_split(instant, Divisor::MICROSECONDS_A_SECOND);
        let (days, clock) = floor_split(second + offset, Divisor::SECONDS_A_DAY);
        Ok(LocalTime {
            day: (days + EPOCH_DAY) as u32,
            clock,
            micros,
        })
    }

    // The instant at which a local time is met in this zone. Of two seconds that show it, the first; where none shows it, the
    // second that would by the offset from before the gap. Refused where the zone is blank less than a day from it.
    pub fn meet(&self, local: LocalTime) -> Result<i64, Fault>
        ensures value { result ≡ met_at ((Z.ZoneSource.zones self.now.source.now).value self.now.number) (pos local.day) local.clock local.micros }
        ensures law { MeetsAt ((Z.ZoneSource.zones self.now.source.now).value self.now.number) local result }
        ensures near { IfOk result (λ i. Near (count_of (pos local.day) local.clock) (second_of i)) }
    {
        let second = self.meet_second(local.seconds())?;
        Ok(instant_of(second, local.micros))
    }
}
