// How far a line has been read.
use crate::keyword::{Form, Keyword};
use crate::line::Line;
use span_law::unit::Unit;

// What a slot is in its line, with the slots before it.
#[derive(Clone, Copy)]
pub(crate) enum Role {
    // the slot before a word
    BeforeWord { form: Form },
    // the mark to be lifted
    Lifted,
    // the marks between which a line measures
    First,
    Second { first: u16 },
    // the span that is measured
    Measured { first: u16, second: u16, unit: Unit },
    // the mark that is carried, the span by which, and the slot to which
    Carried,
    CarriedBy { first: u16 },
    Target { first: u16, span: u16 },
}

// How far a line has been read. Every value can be read on to a whole line, also one that no line leads to.
#[derive(Clone, Copy)]
pub(crate) enum Progress {
    // before the first byte
    Start,
    // in a keyword, of which so many bytes are read
    Letters { keyword: Keyword, read: u8 },
    // a unit has to follow
    UnitStart { first: u16, second: u16 },
    // a slot's first digit has to follow
    Gap { role: Role },
    // in a slot: its value so far
    Slot { role: Role, slot: u16, digits: u8 },
    // a word has to begin, after the slot
    Space { form: Form, slot: u16 },
    // in a word, whose place the line tells
    Text { line: Line },
    // after `list`
    Listed,
}
