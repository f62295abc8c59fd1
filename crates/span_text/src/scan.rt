// How far a span text has been read, byte by byte.
ghost use Rattle.std.specs.Prelude.{◌≡◌, ◌*◌, ◌<◌, ◌≤◌, Some, None};
ghost use Rattle.span_text.specs.Scanning.{unit_of, at, closed, after_designator, in_number, in_point, in_fraction, stepped, ended};

use reading::Scan;

// A designator that has been read, in their order; numbers stand before the ones that close them.
#[derive(Clone, Copy, PartialEq, Eq, PartialOrd, Ord)]
pub enum Designator {
    Period,
    Years,
    Months,
    Weeks,
    Days,
    Time,
    Hours,
    Minutes,
    Seconds,
}

#[derive(Clone, Copy)]
pub enum Stage {
    Start,
    // after the sign
    Signed,
    // just after a designator
    After(Designator),
    // in a number after a designator, after so many of its digits
    Number {
        last: Designator,
        value: u32,
        digits: u8,
    },
    // after the point
    Point {
        seconds: u32,
    },
    // in a fraction of a second, after so many of its digits
    Fraction {
        seconds: u32,
        micros: u32,
        digits: u8,
    },
}

// What a span text says, number by number.
#[derive(Clone, Copy)]
pub struct Fields {
    pub minus: bool,
    pub years: u32,
    pub months: u32,
    pub weeks: u32,
    pub days: u32,
    pub hours: u32,
    pub minutes: u32,
    pub seconds: u32,
    pub micros: u32,
}

// How far a text has been read, and what it said so far. Every value can be read on to a whole text, also one that no
// text leads to, so that the steps need no invariant.
#[derive(Clone, Copy)]
pub struct Progress {
    pub stage: Stage,
    pub fields: Fields,
}

// Before the first byte.
pub const START: Progress = Progress {
    stage: Stage::Start,
    fields: Fields {
        minus: false,
        years: 0,
        months: 0,
        weeks: 0,
        days: 0,
        hours: 0,
        minutes: 0,
        seconds: 0,
        micros: 0,
    },
};

// The microseconds of a fraction's digit after k others.
fn micros_of_digit(digit: u8, k: u8) -> u32
    requires one { digit ≤ 9 }
    requires place { k < 6 }
    ensures value { result ≡ digit * unit_of k }
    ensures small { result < 1000000 }
{
    u32::from(digit) * 10_u32.pow(5 - u32::from(k))
}

impl Fields {
    // What the text said so far, with how far it has been read.
    fn at(self, stage: Stage) -> Progress
        ensures { result ≡ at stage self }
    {
        Progress {
            stage,
            fields: self,
        }
    }

    // After the letter that closes the number `n`, which follows the designator `last`.
    fn close(self, last: Designator, n: u32, byte: u8) -> Option<Progress>
        ensures { result ≡ closed self last n byte }
    {
        let (next, fields) = match char::from(byte) {
            'Y' if last < Designator::Years => (Designator::Years, Fields { years: n, ..self }),
            'M' if last < Designator::Months => (Designator::Months, Fields { months: n, ..self }),
            'W' if last < Designator::Weeks => (Designator::Weeks, Fields { weeks: n, ..self }),
            'D' if last < Designator::Days => (Designator::Days, Fields { days: n, ..self }),
            'H' if last == Designator::Time => (Designator::Hours, Fields { hours: n, ..self }),
            'M' if last == Designator::Time || last == Designator::Hours => (
                Designator::Minutes,
                Fields { minutes: n, ..self },
            ),
            'S' if last >= Designator::Days => (Designator::Seconds, Fields { seconds: n, ..self }),
            _ => return None,
        };
        Some(fields.at(Stage::After(next)))
    }

    // After one byte more, just after a designator.
    fn after_designator(self, last: Designator, byte: u8) -> Option<Progress>
        ensures { result ≡ after_designator self last byte }
    {
        let stage = match char::from(byte) {
            '0'..='9' if last != Designator::Days && last < Designator::Seconds => Stage::Number {
                last,
                value: u32::from(byte - b'0'),
                digits: 1,
            },
            'T' if last < Designator::Time => Stage::After(Designator::Time),
            _ => return None,
        };
        Some(self.at(stage))
    }

    // After one byte more, in a number after a designator.
    fn in_number(self, last: Designator, value: u32, digits: u8, byte: u8) -> Option<Progress>
        ensures { result ≡ in_number self last value digits byte }
    {
        let stage = match char::from(byte) {
            '0'..='9' if digits < 9 && value < 100_000_000 => Stage::Number {
                last,
                value: value * 10 + u32::from(byte - b'0'),
                digits: digits + 1,
            },
            '.' if last >= Designator::Days => Stage::Point { seconds: value },
            _ => return self.close(last, value, byte),
        };
        Some(self.at(stage))
    }

    // After one byte more, after the point.
    fn in_point(self, seconds: u32, byte: u8) -> Option<Progress>
        ensures { result ≡ in_point self seconds byte }
    {
        match char::from(byte) {
            '0'..='9' => Some(self.at(Stage::Fraction {
                seconds,
                micros: micros_of_digit(byte - b'0', 0),
                digits: 1,
            })),
            _ => None,
        }
    }

    // After one byte more, in a fraction.
    fn in_fraction(self, seconds: u32, micros: u32, digits: u8, byte: u8) -> Option<Progress>
        ensures { result ≡ in_fraction self seconds micros digits byte }
    {
        match char::from(byte) {
            '0'..='9' if digits < 6 && micros < 1_000_000 => Some(self.at(Stage::Fraction {
                seconds,
                micros: micros + micros_of_digit(byte - b'0', digits),
                digits: digits + 1,
            })),
            'S' => {
                let fields = Fields {
                    seconds,
                    micros,
                    ..self
                };
                Some(fields.at(Stage::After(Designator::Seconds)))
            }
            _ => None,
        }
    }
}

impl Scan for Progress {
    type Value = Fields;

    ghost stepped = { stepped };

    ghost ended = { ended };

    fn step(self, _at: usize, byte: u8) -> Option<Progress> {
        let fields = self.fields;
        match self.stage {
            Stage::Start if byte == b'-' => {
                let fields = Fields {
                    minus: true,
                    ..START.fields
                };
                Some(fields.at(Stage::Signed))
            }
            Stage::Start | Stage::Signed => {
                (byte == b'P').then_some(fields.at(Stage::After(Designator::Period)))
            }
            Stage::After(last) => fields.after_designator(last, byte),
            Stage::Number {
                last,
                value,
                digits,
            } => fields.in_number(last, value, digits, byte),
            Stage::Point { seconds } => fields.in_point(seconds, byte),
            Stage::Fraction {
                seconds,
                micros,
                digits,
            } => fields.in_fraction(seconds, micros, digits, byte),
        }
    }

    fn end(self) -> Option<Fields> {
        match self.stage {
            Stage::After(Designator::Period | Designator::Time) => None,
            Stage::After(_) => Some(self.fields),
            _ => None,
        }
    }
}
