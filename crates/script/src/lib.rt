// Scripts for a board: lines of words, and the answer to each.
#![tactic(auto)]

mod answers;
mod lines;
pub mod run;
