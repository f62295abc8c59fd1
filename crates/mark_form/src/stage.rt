// How far a mark text has been read.
ghost use Rattle.std.specs.Prelude.{◌≡◌};
ghost use Rattle.mark_form.specs.Scanning.{form_text};

use crate::layout::{Layout, Part, Tag, Tags};

// A form of digits and marks, each at its place.
#[derive(Clone, Copy)]
pub(crate) enum Form {
    // the date and the clock time
    Clock,
    // hours and minutes of an offset, after its sign
    Offset,
    // seconds of an offset
    Seconds,
}

impl Form {
    // The form's bytes: `0` is for any digit, another byte for itself.
    pub(crate) fn text(self) -> &'static [u8]
        ensures { result.now ≡ form_text self }
    {
        match self {
            Form::Clock => b"0000-00-00T00:00:00",
            Form::Offset => b"00:00",
            Form::Seconds => b"00",
        }
    }
}

#[derive(Clone, Copy)]
pub(crate) enum Stage {
    // in a form, after so many of its bytes
    Fixed {
        form: Form,
        read: usize,
    },
    // after the point, and so many digits
    Fraction {
        digits: u8,
    },
    // after `Z`
    Utc,
    // after the zone's `[`, or its `[!`
    Zone {
        critical: bool,
    },
    // in the zone's name
    Name {
        start: usize,
    },
    // a tag may begin, or the text may end
    Between,
    // after a tag's `[`, or its `[!`
    Open {
        bracket: usize,
        critical: bool,
    },
    // in a tag's key, after so many bytes of `u-ca`, or none where it is another key
    Key {
        bracket: usize,
        critical: bool,
        matched: Option<usize>,
    },
    // after a tag's `=`: its value has to begin
    Equals {
        tag: Tag,
    },
    // after a `-` of a value: a run has to begin
    Joined {
        tag: Tag,
        start: usize,
    },
    // in a run of a value
    Run {
        tag: Tag,
        start: usize,
    },
}

// How far a text has been read, and which parts have been seen. Every value can be read on to a whole text, also one that no
// text leads to, so that the steps need no invariant.
#[derive(Clone, Copy)]
pub(crate) struct Progress {
    pub(crate) stage: Stage,
    pub(crate) seen: Layout,
}

// Before the first byte.
pub(crate) const START: Progress = Progress {
    stage: Stage::Fixed {
        form: Form::Clock,
        read: 0,
    },
    seen: Layout {
        sign: 0,
        name: Part { from: 0, to: 0 },
        tags: Tags {
            refused: None,
            calendar: None,
            critical: false,
        },
    },
};
