// Spans: what lies between two marks, in calendar parts and a time.
ghost use Rattle.std.specs.Prelude.{◌≡◌, MatchOption};
ghost use Rattle.timebase.specs.Spans.{Enterable, is_minus, is_wrong, limit_of, part_of, wrong_part};

// A part of a span, in their order.
#[derive(Clone, Copy, Debug, PartialEq, Eq)]
pub enum Part {
    Years,
    Months,
    Weeks,
    Days,
    Time,
}

// The most years, months, weeks or days of a span, either way.
pub const PART_LIMIT: u32 = 4_000_000;

// The most microseconds of a span, either way.
pub const TIME_LIMIT: u64 = 400_000_000_000_000_000;

// What lies between two marks: calendar parts, which are counted in a mark's own calendar, and a time in microseconds.
// A span that a text can enter has parts of one sign, within their limits; one that a host wrote into its memory may not.
#[derive(Clone, Copy, Debug, Default, PartialEq, Eq)]
pub struct Span {
    pub years: i32,
    pub months: i32,
    pub weeks: i32,
    pub days: i32,
    pub time: i64,
}

// Whether a part is past its limit, or above nought where another is below.
fn is_wrong(minus: bool, limit: u64, part: i64) -> bool
    ensures { result ≡ is_wrong minus limit part }
{
    part.unsigned_abs() > limit || (minus && part > 0)
}

impl Part {
    // The parts, in their order.
    const ALL: [Part; 5] = [
        Part::Years,
        Part::Months,
        Part::Weeks,
        Part::Days,
        Part::Time,
    ];

    // The most of this part in a span, either way.
    pub fn limit(self) -> u64
        ensures { result ≡ limit_of self }
    {
        match self {
            Part::Time => TIME_LIMIT,
            _ => u64::from(PART_LIMIT),
        }
    }
}

impl Span {
    // One part.
    pub fn part(&self, part: Part) -> i64
        ensures { result ≡ part_of self.now part }
    {
        match part {
            Part::Years => i64::from(self.years),
            Part::Months => i64::from(self.months),
            Part::Weeks => i64::from(self.weeks),
            Part::Days => i64::from(self.days),
            Part::Time => self.time,
        }
    }

    // Whether some part is below nought.
    pub fn is_minus(&self) -> bool
        ensures { result ≡ is_minus self.now }
    {
        self.years < 0 || self.months < 0 || self.weeks < 0 || self.days < 0 || self.time < 0
    }

    // The first part that is past its limit, or above nought where another is below; none exactly where a text can
    // enter the span.
    pub fn wrong_part(&self) -> Option<Part>
        ensures value { result ≡ wrong_part self.now }
        ensures law { MatchOption result (Enterable self.now) (λ _. Enterable self.now → ⊥) }
    {
        let minus = self.is_minus();
        // the library tells `find` over an array by its runs alone
        for part in Part::ALL {
            if is_wrong(minus, part.limit(), self.part(part)) {
                return Some(part);
            }
        }
        None
    }
}
