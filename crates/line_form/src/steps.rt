// The steps by which a line is read.
ghost use Rattle.std.specs.Prelude.{◌≡◌};
ghost use Rattle.line_form.specs.Scanning.{after_keyword, in_keyword, in_letters, in_gap, after_slot, in_slot, slot_line, form_line, in_space, in_text, stepped, ended};

use crate::keyword::{Form, Keyword, command_by, unit_by};
use crate::line::Line;
use crate::progress::{Progress, Role};
use reading::Scan;

// After a whole keyword.
fn after_keyword(keyword: Keyword) -> Progress
    ensures { result ≡ after_keyword keyword }
{
    let role = match keyword {
        Keyword::Worded { form } => Role::BeforeWord { form },
        Keyword::Lift => Role::Lifted,
        Keyword::Between => Role::First,
        Keyword::Carry => Role::Carried,
        Keyword::List => return Progress::Listed,
        Keyword::UnitWord {
            first,
            second,
            unit,
        } => Role::Measured {
            first,
            second,
            unit,
        },
    };
    Progress::Gap { role }
}

// After the next byte of a keyword, of which so many bytes have been read.
fn keyword_step(keyword: Keyword, read: u8, byte: u8) -> Option<Progress>
    ensures { result ≡ in_keyword keyword read byte }
{
    if byte != keyword.byte_at(read) {
        None
    } else if usize::from(read) + 1 < keyword.text().len() {
        Some(Progress::Letters {
            keyword,
            read: read + 1,
        })
    } else {
        Some(after_keyword(keyword))
    }
}

// The same, where the byte may be the third: that tells two words apart.
fn letters_step(keyword: Keyword, read: u8, byte: u8) -> Option<Progress>
    ensures { result ≡ in_letters keyword read byte }
{
    let keyword = if read == 2 {
        keyword.by_third(byte)
    } else {
        keyword
    };
    keyword_step(keyword, read, byte)
}

fn gap_step(role: Role, byte: u8) -> Option<Progress>
    ensures { result ≡ in_gap role byte }
{
    match byte {
        b'0'..=b'9' => Some(Progress::Slot {
            role,
            slot: u16::from(byte - b'0'),
            digits: 1,
        }),
        _ => None,
    }
}

// After the space that follows a slot.
fn after_slot(role: Role, slot: u16) -> Option<Progress>
    ensures { result ≡ after_slot role slot }
{
    match role {
        Role::BeforeWord { form } => Some(Progress::Space { form, slot }),
        Role::First => {
            let role = Role::Second { first: slot };
            Some(Progress::Gap { role })
        }
        Role::Second { first } => Some(Progress::UnitStart {
            first,
            second: slot,
        }),
        Role::Carried => {
            let role = Role::CarriedBy { first: slot };
            Some(Progress::Gap { role })
        }
        Role::CarriedBy { first } => {
            let role = Role::Target { first, span: slot };
            Some(Progress::Gap { role })
        }
        Role::Lifted | Role::Measured { .. } | Role::Target { .. } => None,
    }
}

fn slot_step(role: Role, slot: u16, digits: u8, byte: u8) -> Option<Progress>
    ensures { result ≡ in_slot role slot digits byte }
{
    match byte {
        b'0'..=b'9' if digits < 3 && slot < 100 => Some(Progress::Slot {
            role,
            slot: slot * 10 + u16::from(byte - b'0'),
            digits: digits + 1,
        }),
        b' ' => after_slot(role, slot),
        _ => None,
    }
}

// The line that ends with a slot.
fn slot_line(role: Role, slot: u16) -> Option<Line>
    ensures { result ≡ slot_line role slot }
{
    match role {
        Role::Lifted => Some(Line::Lift { slot }),
        Role::Measured {
            first,
            second,
            unit,
        } => Some(Line::Between {
            first,
            second,
            unit,
            span: slot,
        }),
        Role::Target { first, span } => Some(Line::Carry {
            first,
            span,
            target: slot,
        }),
        _ => None,
    }
}

// The line whose word begins at a place.
fn form_line(form: Form, slot: u16, at: usize) -> Line
    ensures { result ≡ form_line form slot at }
{
    match form {
        Form::Mark => Line::Mark { slot, text: at },
        Form::Span => Line::Span { slot, text: at },
        Form::Zone => Line::Zone { slot, name: at },
        Form::Calendar => Line::Calendar { slot, name: at },
    }
}

// The first byte of a word, which begins there.
fn space_step(form: Form, slot: u16, at: usize, byte: u8) -> Option<Progress>
    ensures { result ≡ in_space form slot at byte }
{
    text_step(form_line(form, slot, at), byte)
}

fn text_step(line: Line, byte: u8) -> Option<Progress>
    ensures { result ≡ in_text line byte }
{
    match byte {
        b' ' => None,
        _ => Some(Progress::Text { line }),
    }
}

impl Scan for Progress {
    type Value = Line;

    ghost stepped = { stepped };

    ghost ended = { ended };

    fn step(self, at: usize, byte: u8) -> Option<Progress> {
        match self {
            Progress::Start => keyword_step(command_by(byte), 0, byte),
            Progress::Letters { keyword, read } => letters_step(keyword, read, byte),
            Progress::UnitStart { first, second } => {
                let unit = unit_by(byte);
                let keyword = Keyword::UnitWord {
                    first,
                    second,
                    unit,
                };
                keyword_step(keyword, 0, byte)
            }
            Progress::Gap { role } => gap_step(role, byte),
            Progress::Slot { role, slot, digits } => slot_step(role, slot, digits, byte),
            Progress::Space { form, slot } => space_step(form, slot, at, byte),
            Progress::Text { line } => text_step(line, byte),
            Progress::Listed => None,
        }
    }

    fn end(self) -> Option<Line> {
        match self {
            Progress::Slot { role, slot, .. } => slot_line(role, slot),
            Progress::Text { line } => Some(line),
            Progress::Listed => Some(Line::List),
            _ => None,
        }
    }
}
