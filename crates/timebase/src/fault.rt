// Why a call is refused.
ghost use Rattle.std.specs.Prelude.{◌≡◌};
ghost use Rattle.timebase.specs.Faults.{at_place, told as told_by};
ghost use Rattle.timebase.specs.declared.fault.Fault.{Fault as AnyFault};

use crate::span::Part;

// A refusal, in the order in which a call makes its checks. Slots of a call and parts of a span count from 0, and so do
// the bytes of a text.
#[derive(Clone, Copy, Debug, PartialEq, Eq)]
pub enum Fault {
    // a slot of the call is off the shelf
    SlotOff { slot: u8 },
    // a slot that is read or lifted is empty
    SlotEmpty { slot: u8 },
    // a text, a name or a line doesn't read
    Unreadable { at: usize },
    // no such day, clock time or offset
    NoSuchField { at: usize },
    // a critical tag is unknown, or names a calendar again
    CriticalTag { at: usize },
    UnknownZone { at: usize },
    UnknownCalendar { at: usize },
    // a part of a span is past its limit
    PastLimit { part: Part },
    // no such year, date or day in a carry
    NoSuchDate,
    // the final instant is outside its range
    InstantOut,
    // the zone has no offset there
    Blank { cause: u8, depth: u8 },
    // the zone denies the offset that a text says
    OffsetDenied { at: usize },
    // a buffer is too small for what is to be written
    BufferSmall,
    // a zone file is bad
    BadFile { at: usize },
}

// What a refusal tells: its number, and its place, cause and depth, which are 0 where it has none. They are numbers since
// the answer to a call is written in them.
#[derive(Clone, Copy, Debug, PartialEq, Eq)]
pub struct Told {
    pub number: u8,
    pub place: usize,
    pub cause: u8,
    pub depth: u8,
}

// A refusal by its number and place alone.
fn at_place(number: u8, place: usize) -> Told
    ensures { result ≡ at_place number place }
{
    Told {
        number,
        place,
        cause: 0,
        depth: 0,
    }
}

impl Fault {
    // What this refusal tells; no other refusal tells the same. A From would say both in one relation, and read no plainer.
    pub fn told(self) -> Told
        ensures value { result ≡ told_by self }
        ensures alone { (other : AnyFault) → told_by other ≡ result → other ≡ self }
    {
        match self {
            Fault::SlotOff { slot } => at_place(1, usize::from(slot)),
            Fault::SlotEmpty { slot } => at_place(2, usize::from(slot)),
            Fault::Unreadable { at } => at_place(3, at),
            Fault::NoSuchField { at } => at_place(4, at),
            Fault::CriticalTag { at } => at_place(5, at),
            Fault::UnknownZone { at } => at_place(6, at),
            Fault::UnknownCalendar { at } => at_place(7, at),
            Fault::PastLimit { part } => at_place(8, part as usize),
            Fault::NoSuchDate => at_place(9, 0),
            Fault::InstantOut => at_place(10, 0),
            Fault::Blank { cause, depth } => Told {
                number: 11,
                place: 0,
                cause,
                depth,
            },
            Fault::OffsetDenied { at } => at_place(12, at),
            Fault::BufferSmall => at_place(13, 0),
            Fault::BadFile { at } => at_place(14, at),
        }
    }
}
