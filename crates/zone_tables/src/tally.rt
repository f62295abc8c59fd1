// Counts of what was compared.
ghost use Rattle.std.specs.Prelude.{◌≡◌, ◌+◌, ◌<◌, if◌then◌else◌};

use std::fmt;

// How much was compared, and how much of it differs. (`tables` has a tally of rows: programs share no code.)
#[derive(Clone, Copy, Default)]
pub struct Tally {
    compared: u64,
    differ: u64,
}

impl Tally {
    // Counts one more comparison; past the largest number the counts stay as they are.
    pub(crate) fn note(&mut self, ok: bool)
        ensures compared { self.old.compared < 18446744073709551615 → self.new.compared ≡ self.old.compared + 1 }
        ensures differ { self.old.differ < 18446744073709551615 → self.new.differ ≡ self.old.differ + (if ok then 0 else 1) }
    {
        self.compared = self.compared.saturating_add(1);
        if !ok {
            self.differ = self.differ.saturating_add(1);
        }
    }

    // Counts what another tally counts.
    pub(crate) fn add(&mut self, other: Tally)
        ensures compared { self.old.compared + other.compared < 18446744073709551616 → self.new.compared ≡ self.old.compared + other.compared }
        ensures differ { self.old.differ + other.differ < 18446744073709551616 → self.new.differ ≡ self.old.differ + other.differ }
    {
        self.compared = self.compared.saturating_add(other.compared);
        self.differ = self.differ.saturating_add(other.differ);
    }
}

impl fmt::Display for Tally {
    fn fmt<W: fmt::Write>(&self, f: &mut fmt::Formatter<W>) -> fmt::Result {
        let Tally { compared, differ } = *self;
        write!(f, "{compared} compared, {differ} differ")
    }
}
