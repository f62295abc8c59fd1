// Local times: what the calendar and the clock of a zone show.
ghost use Rattle.std.specs.Prelude.{◌≤◌};

// A day number and a clock time: seconds into the day, and microseconds into the second.
#[derive(Clone, Copy)]
pub struct LocalTime {
    pub day: u32,
    pub clock: u32,
    pub micros: u32,
    ghost first: { 1 ≤ day },
    ghost last: { day ≤ 3652059 },
    ghost clock_high: { clock ≤ 86399 },
    ghost micros_high: { micros ≤ 999999 },
}
