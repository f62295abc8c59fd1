// The plan board: marks and spans on shelves in memory that the host lends, over any zone source and any calendar source, and the
// calls on them.
#![tactic(auto)]

pub mod board;
pub mod call;
mod checks;
pub mod listing;
pub mod marks;
pub mod run;
pub mod spans;
pub mod texts;
