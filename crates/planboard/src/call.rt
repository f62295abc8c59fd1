// Calls as values, and their answers.

use mark_text::mark::Mark;
use span_law::unit::Unit;
use timebase::span::Span;

// A call on a board. Texts and names are the caller's; a text that a call writes goes to a buffer that it is made with.
#[derive(Clone, Copy)]
pub enum Call<'t> {
    Place {
        slot: usize,
        text: &'t [u8],
    },
    Lift {
        slot: usize,
    },
    Enter {
        slot: usize,
        text: &'t [u8],
    },
    Measure {
        first: usize,
        second: usize,
        unit: Unit,
        span: usize,
    },
    Carry {
        first: usize,
        span: usize,
        target: usize,
    },
    Rezone {
        slot: usize,
        name: &'t [u8],
    },
    Recalendar {
        slot: usize,
        name: &'t [u8],
    },
    WriteMark {
        slot: usize,
    },
    WriteSpan {
        slot: usize,
    },
    List,
}

// What an accepted call answers.
#[derive(Clone, Copy, Debug, PartialEq, Eq)]
pub enum Answer {
    // the mark that stands in its slot then
    Mark(Mark),
    // the mark that was lifted
    Lifted(Mark),
    // the span that stands in its slot then
    Span(Span),
    // the length of the text that was written
    Written(usize),
}
