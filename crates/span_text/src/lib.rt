// Span texts: an optional `-`, `P`, then years, months, weeks and days by the letters Y, M, W, D, then `T` with H, M, S.
#![tactic(auto)]

pub mod read;
mod scan;
pub mod write;
