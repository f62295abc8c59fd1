// Directions in time.

// Onward, to what is later, or back, to what is earlier.
#[derive(Clone, Copy, Debug, PartialEq, Eq)]
pub enum Way {
    Onward,
    Back,
}
