// Questions to a zone source.

// A question that a zone source answers.
#[derive(Clone, Copy)]
pub enum Question<'q> {
    Count,
    Name {
        zone: usize,
    },
    Find {
        name: &'q [u8],
    },
    Value {
        zone: usize,
        at: i64,
    },
    Change {
        zone: usize,
        after: i64,
        before: i64,
    },
}
