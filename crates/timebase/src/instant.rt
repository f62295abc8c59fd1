// Instants: microseconds from 1970-01-01T00:00:00Z, leap seconds aside.
ghost use Rattle.std.specs.Prelude.{◌≡◌};
ghost use Rattle.timebase.specs.Instants.{is_instant};

// 0001-01-02T00:00:00Z, a day after day 1 begins: every zone's local time there is a time of day 1 or a later one.
pub const FIRST_INSTANT: i64 = -62_135_510_400_000_000;

// 9999-12-30T23:59:59.999999Z, a day before the last day ends.
pub const LAST_INSTANT: i64 = 253_402_214_399_999_999;

// Whether a mark can have this instant.
pub fn is_instant(micros: i64) -> bool
    ensures { result ≡ is_instant micros }
{
    (FIRST_INSTANT..=LAST_INSTANT).contains(&micros)
}
