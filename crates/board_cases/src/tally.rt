// The counts of answers.
ghost use Rattle.std.specs.Prelude.{◌≡◌, ◌+◌, ◌<◌};

use std::fmt;

// How many answers were compared, and how many of them differ.
#[derive(Default, Drop)]
pub struct Tally {
    pub answers: usize,
    pub differ: usize,
}

impl Tally {
    // Adds the counts of another tally; past the largest number the counts stay as they are.
    pub(crate) fn add(&mut self, other: &Tally)
        ensures answers { self.old.answers + other.now.answers < 18446744073709551616 → self.new.answers ≡ self.old.answers + other.now.answers }
        ensures differ { self.old.differ + other.now.differ < 18446744073709551616 → self.new.differ ≡ self.old.differ + other.now.differ }
    {
        self.answers = self.answers.saturating_add(other.answers);
        self.differ = self.differ.saturating_add(other.differ);
    }
}

impl fmt::Display for Tally {
    fn fmt<W: fmt::Write>(&self, f: &mut fmt::Formatter<W>) -> fmt::Result {
        let Tally { answers, differ } = self;
        write!(f, "{answers} answers, {differ} differ")
    }
}
