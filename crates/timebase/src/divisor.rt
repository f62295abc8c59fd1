// Numbers to divide by.
ghost use Rattle.std.specs.Prelude.{◌≡◌, ◌<◌, MatchOption};

// A number that is never 0, so that division by it needs no test. The library's NonZeroU32 can't be made in a constant.
#[derive(Clone, Copy)]
pub struct Divisor {
    value: u32,
    ghost positive: { 0 < value },
}

impl Divisor {
    // 1,000,000
    pub const MICROSECONDS_A_SECOND: Divisor = Divisor { value: 1_000_000 };

    // 86,400
    pub const SECONDS_A_DAY: Divisor = Divisor { value: 86_400 };

    // 7
    pub const DAYS_A_WEEK: Divisor = Divisor { value: 7 };

    // The divisor of that value; none for 0.
    pub fn new(value: u32) -> Option<Divisor>
        ensures { MatchOption result (value ≡ 0) (λ d. d.value ≡ value) }
    {
        if value == 0 {
            None
        } else {
            Some(Divisor { value })
        }
    }

    pub fn get(self) -> u32
        ensures value { result ≡ self.value }
        ensures positive { 0 < result }
    {
        self.value
    }
}
