// The words that the forms of lines prescribe.
ghost use Rattle.std.specs.Prelude.{◌≡◌, ◌≤◌, [], ◌∷◌, ◌++◌, length};
ghost use Rattle.line_form.specs.Keywords.{unit_word, form_text, keyword_text, keyword_byte, command_by, by_third, unit_by};

use span_law::unit::Unit;

// The forms that end in a word, after one slot.
#[derive(Clone, Copy)]
pub(crate) enum Form {
    Mark,
    Span,
    Zone,
    Calendar,
}

impl Form {
    // The command of such a line, with the space after it.
    fn text(self) -> &'static [u8]
        ensures { result.now ≡ form_text self }
    {
        match self {
            Form::Mark => b"mark ",
            Form::Span => b"span ",
            Form::Zone => b"zone ",
            Form::Calendar => b"calendar ",
        }
    }
}

// A command, or the word of a unit.
#[derive(Clone, Copy)]
pub(crate) enum Keyword {
    Worded { form: Form },
    Lift,
    Between,
    Carry,
    List,
    // in a line `between`, after its two slots
    UnitWord { first: u16, second: u16, unit: Unit },
}

// The word of a unit, with the space after it.
fn unit_text(unit: Unit) -> &'static [u8]
    ensures { result.now ≡ unit_word unit ++ (32 ∷ []) }
{
    match unit {
        Unit::Year => b"year ",
        Unit::Month => b"month ",
        Unit::Week => b"week ",
        Unit::Day => b"day ",
        Unit::Hour => b"hour ",
    }
}

// The unit whose word begins with a letter: where none does, one whose word doesn't.
pub(crate) fn unit_by(letter: u8) -> Unit
    ensures { result ≡ unit_by letter }
{
    match letter {
        b'y' => Unit::Year,
        b'm' => Unit::Month,
        b'w' => Unit::Week,
        b'd' => Unit::Day,
        _ => Unit::Hour,
    }
}

// The command that begins with a letter, or the shorter of the two: where none does, one that doesn't.
pub(crate) fn command_by(letter: u8) -> Keyword
    ensures { result ≡ command_by letter }
{
    match letter {
        b'm' => Keyword::Worded { form: Form::Mark },
        b's' => Keyword::Worded { form: Form::Span },
        b'z' => Keyword::Worded { form: Form::Zone },
        b'l' => Keyword::Lift,
        b'b' => Keyword::Between,
        _ => Keyword::Carry,
    }
}

impl Keyword {
    // The word, with the space after it where something has to follow.
    pub(crate) fn text(self) -> &'static [u8]
        ensures value { result.now ≡ keyword_text self }
        ensures few { length result.now ≤ 9 }
    {
        match self {
            Keyword::Worded { form } => form.text(),
            Keyword::Lift => b"lift ",
            Keyword::Between => b"between ",
            Keyword::Carry => b"carry ",
            Keyword::List => b"list",
            Keyword::UnitWord { unit, .. } => unit_text(unit),
        }
    }

    // The byte that follows so many bytes of the word.
    pub(crate) fn byte_at(self, read: u8) -> u8
        ensures { result ≡ keyword_byte self read }
    {
        self.text().get(usize::from(read)).copied().unwrap_or(b' ')
    }

    // The word, or the other one with the same first two letters where the third is that one's.
    pub(crate) fn by_third(self, letter: u8) -> Keyword
        ensures { result ≡ by_third self letter }
    {
        match (self, letter) {
            (Keyword::Lift, b's') => Keyword::List,
            (Keyword::Carry, b'l') => Keyword::Worded {
                form: Form::Calendar,
            },
            _ => self,
        }
    }
}
