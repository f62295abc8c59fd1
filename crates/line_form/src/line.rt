// What a line says: words divided by one space.
ghost use Rattle.std.specs.Prelude.{◌≡◌};
ghost use Rattle.reading.specs.Places.{AnswersWithin};
ghost use Rattle.line_form.specs.Lines.{IsLine};
ghost use Rattle.line_form.specs.Scanning.{read_line};

use crate::progress::Progress;
use reading::{Misread, read_within};
use span_law::unit::Unit;

// The most bytes of a line.
pub const LINE_LIMIT: usize = 160;

// A line by its command, with the slots that it names. A text or a name is told by the place where it begins, and goes to the
// line's end. It is a place and no slice, since the machine sees one byte at a time.
#[derive(Clone, Copy)]
pub enum Line {
    // `mark N TEXT`
    Mark {
        slot: u16,
        text: usize,
    },
    // `lift N`
    Lift {
        slot: u16,
    },
    // `span S TEXT`
    Span {
        slot: u16,
        text: usize,
    },
    // `between A B UNIT S`
    Between {
        first: u16,
        second: u16,
        unit: Unit,
        span: u16,
    },
    // `carry A S C`
    Carry {
        first: u16,
        span: u16,
        target: u16,
    },
    // `zone A NAME`
    Zone {
        slot: u16,
        name: usize,
    },
    // `calendar A NAME`
    Calendar {
        slot: u16,
        name: usize,
    },
    // `list`
    List,
}

// What a line says, or where it goes wrong: the length of its longest viable prefix, or the limit where that is less.
pub fn read_line(line: &[u8]) -> Result<Line, Misread>
    ensures value { result ≡ read_line line.now }
    ensures grammar { AnswersWithin IsLine 160 line.now result }
    ensures one { (f g : Line) → IsLine line.now f → IsLine line.now g → f ≡ g }
{
    read_within(Progress::Start, line, LINE_LIMIT)
}
