// How far a walk through a window has come.

// What the walk has met so far of a local time: nothing; no second of it, but the first second past it, and so what it would
// be by the offset from before; or its first second.
#[derive(Clone, Copy)]
pub(crate) enum Landing {
    Before,
    Gap(i64),
    Hit(i64),
}
