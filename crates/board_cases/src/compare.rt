// What is answered to a script beside what is expected.
ghost use Rattle.std.specs.Prelude.{◌≡◌, ◌↔◌};

use crate::tally::Tally;

// How many lines differ of two texts, place by place; the lines that one text has more than the other differ too.
fn differing_lines(given: &str, expected: &str) -> usize {
    let paired = given
        .lines()
        .zip(expected.lines())
        .filter(|(line, wanted)| line != wanted)
        .count();
    let unpaired = given.lines().count().abs_diff(expected.lines().count());
    paired.saturating_add(unpaired)
}

// How many lines differ: none exactly where the texts are the same, byte for byte. A text that lacks only the last newline
// differs in one.
fn differ(given: &str, expected: &str) -> usize
    ensures { (result ≡ 0) ↔ (given.now ≡ expected.now) }
{
    if given == expected {
        0
    } else {
        differing_lines(given, expected).max(1)
    }
}

// The counts of a script's answers.
pub(crate) fn compare(given: &str, expected: &str) -> Tally
    ensures { (result.differ ≡ 0) ↔ (given.now ≡ expected.now) }
{
    Tally {
        answers: given.lines().count(),
        differ: differ(given, expected),
    }
}
