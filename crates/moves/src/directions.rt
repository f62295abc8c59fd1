// Instants and days, one from another in a direction.
ghost use Rattle.std.specs.Prelude.{◌≡◌, ◌+◌, ◌*◌, ◌<◌, ◌≤◌, pos, negsuc, ◌+ℤ◌, ◌*ℤ◌, ◌≤ℤ◌, ◌<ℤ◌, MatchOption};
ghost use Rattle.span_law.specs.Measuring.{way_between, not_past, toward};
ghost use Rattle.span_law.specs.Stepping.{signed};

use span_law::way::Way;

pub(crate) fn way_to(a: i64, b: i64) -> Way
    ensures { result ≡ way_between a b }
{
    if b < a { Way::Back } else { Way::Onward }
}

// Whether an instant lies not past another, in a direction.
pub(crate) fn is_not_past(way: Way, instant: i64, limit: i64) -> bool
    ensures { result ≡ not_past way instant limit }
{
    match way {
        Way::Onward => instant <= limit,
        Way::Back => limit <= instant,
    }
}

// How far `b` lies from `a`, in a direction.
pub(crate) fn distance(way: Way, a: i64, b: i64) -> i64
    requires from { (negsuc 999999999999999999 ≤ℤ a) × (a ≤ℤ pos 999999999999999999) }
    requires to { (negsuc 999999999999999999 ≤ℤ b) × (b ≤ℤ pos 999999999999999999) }
    ensures { result ≡ toward way a b }
{
    match way {
        Way::Onward => b - a,
        Way::Back => a - b,
    }
}

// The number of the day some days off; none below 0.
pub(crate) fn day_off(day: u32, way: Way, days: u32) -> Option<u32>
    requires day { day ≤ 3652059 }
    requires days { days ≤ 3652059 }
    ensures { MatchOption result ((pos day +ℤ signed way days) <ℤ pos 0) (λ d. pos d ≡ pos day +ℤ signed way days) }
{
    match way {
        Way::Onward => Some(day + days),
        Way::Back => day.checked_sub(days),
    }
}

// The most days off whose clock time could be met before an instant that lies `ahead` of the start's local time: a meeting lies
// less than a day from its local time.
pub(crate) fn most_days(ahead: i64) -> u32
    requires low { negsuc 86398999999 ≤ℤ ahead }
    requires high { ahead ≤ℤ pos 315537811198999999 }
    ensures few { result ≤ 3652058 }
    ensures most { (ahead +ℤ pos 86399000000) <ℤ pos (86400000000 * (result + 1)) }
{
    ((ahead + 86_399_000_000) as u64 / 86_400_000_000) as u32
}
