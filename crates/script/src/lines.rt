// Cutting a text into lines.
ghost use Rattle.std.specs.Prelude.{◌≡◌, [], ◌∷◌, MatchOption};
ghost use Rattle.std.specs.Iterator.{YieldsFirstBy, item_count};
ghost use Rattle.script.specs.Scripts.{lines_of};

use reading::line_length;

// The first line of a text, and the text after it; none where nothing is left.
fn next_line(text: &[u8]) -> Option<(&[u8], &[u8])>
    ensures { MatchOption result (text.now ≡ []) (λ p. lines_of text.now ≡ p.0.now ∷ lines_of p.1.now) }
{
    if text.is_empty() {
        return None;
    }
    let (line, rest) = text.split_at(line_length(text));
    match rest {
        [_newline, rest @ ..] => Some((line, rest)),
        _ => Some((line, rest)),
    }
}

// The lines of a text, one after another: a newline ends a line.
#[derive(Drop)]
pub(crate) struct Lines<'a> {
    pub(crate) left: &'a [u8],
}

impl<'a> Iterator for Lines<'a> {
    type Item = &'a [u8];

    ghost next_gives = { YieldsFirstBy (λ line. line.now) (λ s. lines_of s.left.now) };

    ghost remaining = { item_count (λ s. lines_of s.left.now) };

    fn next(&mut self) -> Option<&'a [u8]> {
        let (line, rest) = next_line(self.left)?;
        self.left = rest;
        Some(line)
    }
}
