// What is found in a file.
ghost use Rattle.std.specs.Prelude.{◌≤◌};

// Where the parts of a good file stand that a look-up reads: places, since the type is public and has no lifetime.
#[derive(Clone, Copy)]
pub struct Layout {
    // the place of the second block, which starts with its transition seconds
    pub block: usize,
    // how many transitions
    pub times: usize,
    // how many types
    pub types: usize,
    // the place of the footer's text
    pub footer: usize,
}

// What the second header counts.
#[derive(Clone, Copy)]
pub(crate) struct Counts {
    // transitions
    pub(crate) times: usize,
    // types
    pub(crate) types: usize,
    // bytes of the second block after its types
    pub(crate) others: usize,
    ghost judged: { (times ≤ 2000) × (1 ≤ types) × (types ≤ 256) },
}
