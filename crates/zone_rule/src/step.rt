// One change of a zone's offset.

// From the second `at` on, the zone has `offset`.
#[derive(Clone, Copy)]
pub struct Step {
    pub at: i64,
    pub offset: i32,
}
