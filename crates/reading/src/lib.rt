// Reading a text byte by byte, and where a text that doesn't read goes wrong.
#![tactic(auto)]

ghost use Rattle.std.specs.Prelude.{◌≡◌, ◌≤◌, ℕ, length, Option as Maybe};
ghost use Rattle.reading.specs.Lines.{line_length};
ghost use Rattle.reading.specs.Reading.{read_on, limited};
ghost use Rattle.timebase.specs.declared.fault.Fault.TheVariants.{Unreadable};

use timebase::fault::Fault;

// Where a text stops reading: the place of the byte that can't stand there, or the length of a text that is cut short.
#[derive(Clone, Copy, Debug, PartialEq, Eq)]
pub struct Misread {
    pub at: usize,
}

impl From<Misread> for Fault {
    ghost from_gives = { λ m f. f ≡ Unreadable m.at };

    fn from(misread: Misread) -> Fault {
        Fault::Unreadable { at: misread.at }
    }
}

// How far a text has been read: a step machine's state. The steps are its meaning, so one loop reads every kind of text.
pub trait Scan: Copy {
    // what a whole text gives
    type Value: Drop;

    // the state after the byte at a place, or none where that byte can't stand there
    ghost stepped: { Self → ℕ → ℕ → Maybe Self };

    // what the text gives, if it may end here
    ghost ended: { Self → Maybe Self.Value };

    fn step(self, at: usize, byte: u8) -> Option<Self>
        ensures { result ≡ stepped self at byte };

    fn end(self) -> Option<Self::Value>
        ensures { result ≡ ended self };
}

// What a text gives from a first state on, or where it stops reading.
pub fn read<S: Scan>(start: S, text: &[u8]) -> Result<S::Value, Misread>
    ensures { result ≡ read_on S.Scan.stepped S.Scan.ended start 0 text.now }
{
    let mut state = start;
    let mut left = text;
    let mut at = 0;
    while let [first, rest @ ..] = left {
        state = state.step(at, *first).ok_or(Misread { at })?;
        left = rest;
        at += 1;
    }
    state.end().ok_or(Misread { at })
}

// What reading a text of that length answers under a limit on the length.
pub fn within_limit<V: Drop>(
    answer: Result<V, Misread>,
    length: usize,
    limit: usize,
) -> Result<V, Misread>
    ensures { result ≡ limited limit length answer }
{
    match answer {
        Ok(_) if length > limit => Err(Misread { at: limit }),
        Err(misread) if misread.at > limit => Err(Misread { at: limit }),
        _ => answer,
    }
}

// What a text of at most so many bytes gives; a longer one stops reading at the limit, if not before.
pub fn read_within<S: Scan>(start: S, text: &[u8], limit: usize) -> Result<S::Value, Misread>
    ensures { result ≡ limited limit (length text.now) (read_on S.Scan.stepped S.Scan.ended start 0 text.now) }
{
    within_limit(read(start, text), text.len(), limit)
}

// How many bytes of a text stand before its first newline, or in all where it has none.
pub fn line_length(text: &[u8]) -> usize
    ensures value { result ≡ line_length text.now }
    ensures within { result ≤ length text.now }
{
    text.iter().position(|b| *b == b'\n').unwrap_or(text.len())
}
