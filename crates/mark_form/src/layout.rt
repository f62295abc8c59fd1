// Where the parts of a mark text stand.
ghost use Rattle.std.specs.Prelude.{◌≡◌};
ghost use Rattle.mark_form.specs.Tags.{noted};

// A part of a text, from one place up to another.
#[derive(Clone, Copy, Debug, PartialEq, Eq)]
pub struct Part {
    pub from: usize,
    pub to: usize,
}

// What the tags of a text come to.
#[derive(Clone, Copy, Debug, PartialEq, Eq)]
pub struct Tags {
    // the place of the `[` of the first tag that is refused: a critical one of another key than `u-ca`, or a later `u-ca` if it
    // or the first is critical
    pub refused: Option<usize>,
    // where the value of the first `u-ca` stands
    pub calendar: Option<Part>,
    // whether that one is critical
    pub critical: bool,
}

// The parts of a mark text.
#[derive(Clone, Copy, Debug, PartialEq, Eq)]
pub struct Layout {
    // the place of `Z`, or of the offset's sign
    pub sign: usize,
    // the zone's name, without its brackets and its `!`
    pub name: Part,
    pub tags: Tags,
}

// A tag up to its `=`.
#[derive(Clone, Copy)]
pub(crate) struct Tag {
    // the place of its `[`
    pub(crate) bracket: usize,
    pub(crate) critical: bool,
    // whether its key is `u-ca`
    pub(crate) is_calendar: bool,
}

impl Tags {
    // What the tags come to with one more, whose value stands at a part.
    pub(crate) fn note(self, tag: Tag, value: Part) -> Tags
        ensures { result ≡ noted self tag value }
    {
        match self.calendar {
            None if tag.is_calendar => Tags {
                calendar: Some(value),
                critical: tag.critical,
                ..self
            },
            _ if tag.critical || (tag.is_calendar && self.critical) => Tags {
                refused: self.refused.or(Some(tag.bracket)),
                ..self
            },
            _ => self,
        }
    }
}
