// Reading a mark text.
ghost use Rattle.std.specs.Prelude.{◌≡◌};
ghost use Rattle.reading.specs.Places.{AnswersWithin};
ghost use Rattle.mark_form.specs.Grammar.{DraftText, MarkText};
ghost use Rattle.mark_form.specs.Drafts.{read_layout, read_draft};
ghost use Rattle.mark_form.specs.TagLaws.{LayoutTags, DraftTags};

use crate::draft::{Draft, draft_of};
use crate::layout::Layout;
use crate::stage::START;
use reading::{Misread, read_within};

// The most bytes of a mark text.
const MARK_TEXT_LIMIT: usize = 128;

// Where the parts of a mark text stand. A text that is none of the grammar, or too long, is refused at the length of its
// longest viable prefix, or at the limit where that is less.
pub fn read_layout(text: &[u8]) -> Result<Layout, Misread>
    ensures value { result ≡ read_layout text.now }
    ensures law { AnswersWithin MarkText 128 text.now result }
    ensures tags { LayoutTags text.now result }
    ensures one { (f g : Layout) → MarkText text.now f → MarkText text.now g → f ≡ g }
{
    read_within(START, text, MARK_TEXT_LIMIT)
}

// What a mark text says, refused as `read_layout` refuses it.
pub fn read_draft(text: &[u8]) -> Result<Draft, Misread>
    ensures value { result ≡ read_draft text.now }
    ensures law { AnswersWithin DraftText 128 text.now result }
    ensures tags { DraftTags text.now result }
    ensures one { (f g : Draft) → DraftText text.now f → DraftText text.now g → f ≡ g }
{
    let layout = read_layout(text)?;
    Ok(draft_of(text, layout))
}
