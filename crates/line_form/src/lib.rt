// The form of a script's lines: a command, and what it is called with.
#![tactic(auto)]

mod keyword;
pub mod line;
mod progress;
mod steps;
