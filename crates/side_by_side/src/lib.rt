// Two tables side by side: the first's numbers, then the second's.
#![tactic(auto)]

ghost use Rattle.std.specs.Prelude.{◌≡◌};
ghost use Rattle.side_by_side.specs.Places.{joined_count, place_of};

// The most entries of a table.
pub const ENTRIES_MOST: usize = 64;

// Two sources side by side, as one source.
#[derive(Clone, Copy, Drop)]
pub struct Beside<P, Q> {
    pub first: P,
    pub second: Q,
}

// Which of two tables side by side has an entry, and the entry's number there. (An Either would call them left and right.)
#[derive(Clone, Copy)]
pub enum Place {
    First(usize),
    Second(usize),
}

// How many entries two tables of so many have side by side: above 64 in all, only the first's.
pub fn joined_count(first: usize, second: usize) -> usize
    ensures { result ≡ joined_count first second }
{
    if first <= ENTRIES_MOST && second <= ENTRIES_MOST - first {
        first + second
    } else {
        first
    }
}

// Where entry k of two tables of so many entries stands; none where neither has it.
pub fn place_among(first: usize, second: usize, k: usize) -> Option<Place>
    ensures { result ≡ place_of first second k }
{
    if k < first {
        Some(Place::First(k))
    } else if k < joined_count(first, second) {
        Some(Place::Second(k - first))
    } else {
        None
    }
}
