// The seconds whose values a zone tells.
ghost use Rattle.std.specs.Prelude.{◌≡◌};
ghost use Rattle.zone_rule.specs.Ranges.{held, cut_low, cut_high};

// A day before 0001-01-01T00:00:00Z.
const FIRST: i64 = -62_135_683_200;

// A day after 9999-12-31T23:59:59Z.
const LAST: i64 = 253_402_387_199;

// The second whose value holds at `second`.
pub(crate) fn hold(second: i64) -> i64
    ensures { result ≡ held second }
{
    second.clamp(FIRST, LAST)
}

// Before the second that follows FIRST nothing changes.
pub(crate) fn cut_low(after: i64) -> i64
    ensures { result ≡ cut_low after }
{
    after.max(FIRST)
}

// After LAST nothing changes.
pub(crate) fn cut_high(before: i64) -> i64
    ensures { result ≡ cut_high before }
{
    before.min(LAST + 1)
}
