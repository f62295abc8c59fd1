// Signed division with its remainder, as a pair: rounding downward for clock times and day counts, toward zero for weeks.
ghost use Rattle.std.specs.Prelude.{◌≡◌, pos, int_div, int_rem};
ghost use Rattle.timebase.specs.Splits.{floor_quotient, floor_rest, Floor, TowardZero};
ghost use Rattle.timebase.specs.Divisors.{divisor_value};

use crate::divisor::Divisor;

// Quotient and remainder, rounding downward: the remainder is never below 0.
pub fn floor_split(n: i64, by: Divisor) -> (i64, u32)
    ensures quotient { result.0 ≡ floor_quotient n (divisor_value by) }
    ensures rest { result.1 ≡ floor_rest n (divisor_value by) }
    ensures law { Floor n (divisor_value by) result.0 result.1 }
{
    let by = i64::from(by.get());
    (n.div_euclid(by), n.rem_euclid(by) as u32)
}

// Quotient and remainder, rounding toward zero: both have the sign of `n`, or are 0.
pub fn split_toward_zero(n: i64, by: Divisor) -> (i64, i64)
    ensures quotient { result.0 ≡ int_div n (pos (divisor_value by)) }
    ensures rest { result.1 ≡ int_rem n (pos (divisor_value by)) }
    ensures law { TowardZero n (divisor_value by) result.0 result.1 }
{
    let by = i64::from(by.get());
    (n / by, n % by)
}
