// What a mark text says, read off at the places of its parts.
ghost use Rattle.std.specs.Prelude.{◌≡◌, ◌<◌};
ghost use Rattle.mark_form.specs.Drafts.{byte_at, digit_at, two_at, fraction_at, micros_at, said_at, is_unsaid, offset_at, draft_of};

use crate::layout::{Layout, Part, Tags};

// An offset that a text says.
#[derive(Clone, Copy, Debug, PartialEq, Eq)]
pub struct Said {
    // the sign's place, at most 26
    pub sign: usize,
    pub minus: bool,
    pub hours: u32,
    pub minutes: u32,
    pub seconds: u32,
}

// What a mark text says, field by field. No field has been judged: a month may be 99.
#[derive(Clone, Copy, Debug, PartialEq, Eq)]
pub struct Draft {
    pub year: u32,
    pub month: u32,
    pub day: u32,
    pub hour: u32,
    pub minute: u32,
    pub second: u32,
    pub micros: u32,
    // none for `Z` and `-00:00`
    pub offset: Option<Said>,
    pub name: Part,
    pub tags: Tags,
}

// The byte at a place, or 0 past the end.
fn byte_at(text: &[u8], place: usize) -> u8
    ensures { result ≡ byte_at text.now place }
{
    text.get(place).copied().unwrap_or(0)
}

// The number that the digit at a place writes.
fn digit_at(text: &[u8], place: usize) -> u32
    ensures value { result ≡ digit_at text.now place }
    ensures small { result < 256 }
{
    u32::from(byte_at(text, place).saturating_sub(b'0'))
}

// The number that two digits write.
fn two_at(text: &[u8], place: usize) -> u32
    requires { place < 100 }
    ensures value { result ≡ two_at text.now place }
    ensures small { result < 3000 }
{
    digit_at(text, place) * 10 + digit_at(text, place + 1)
}

// The number that a digit of the fraction writes; the fraction ends at the offset's sign.
fn fraction_at(text: &[u8], sign: usize, place: usize) -> u32
    ensures value { result ≡ fraction_at text.now sign place }
    ensures small { result < 256 }
{
    if place < sign {
        digit_at(text, place)
    } else {
        0
    }
}

// The microseconds that the fraction says.
fn micros_at(text: &[u8], sign: usize) -> u32
    ensures { result ≡ micros_at text.now sign }
{
    fraction_at(text, sign, 20) * 100_000
        + fraction_at(text, sign, 21) * 10_000
        + fraction_at(text, sign, 22) * 1_000
        + fraction_at(text, sign, 23) * 100
        + fraction_at(text, sign, 24) * 10
        + fraction_at(text, sign, 25)
}

// The offset that stands from its sign on.
fn said_at(text: &[u8], sign: usize) -> Said
    requires { sign < 90 }
    ensures { result ≡ said_at text.now sign }
{
    Said {
        sign,
        minus: byte_at(text, sign) == b'-',
        hours: two_at(text, sign + 1),
        minutes: two_at(text, sign + 4),
        seconds: if byte_at(text, sign + 6) == b':' {
            two_at(text, sign + 7)
        } else {
            0
        },
    }
}

// Whether the offset is `-00:00`, which says that none is known.
fn is_unsaid(text: &[u8], sign: usize) -> bool
    requires { sign < 90 }
    ensures { result ≡ is_unsaid text.now sign }
{
    byte_at(text, sign) == b'-'
        && byte_at(text, sign + 6) != b':'
        && two_at(text, sign + 1) == 0
        && two_at(text, sign + 4) == 0
}

// The offset that a text says, if it says one.
fn offset_at(text: &[u8], sign: usize) -> Option<Said>
    requires { sign < 90 }
    ensures { result ≡ offset_at text.now sign }
{
    if byte_at(text, sign) == b'Z' || is_unsaid(text, sign) {
        None
    } else {
        Some(said_at(text, sign))
    }
}

// What a text says whose parts stand at these places.
pub(crate) fn draft_of(text: &[u8], layout: Layout) -> Draft
    requires { layout.sign < 90 }
    ensures { result ≡ draft_of text.now layout }
{
    Draft {
        year: two_at(text, 0) * 100 + two_at(text, 2),
        month: two_at(text, 5),
        day: two_at(text, 8),
        hour: two_at(text, 11),
        minute: two_at(text, 14),
        second: two_at(text, 17),
        micros: micros_at(text, layout.sign),
        offset: offset_at(text, layout.sign),
        name: layout.name,
        tags: layout.tags,
    }
}
