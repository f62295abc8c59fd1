// Carrying instants by spans and measuring spans between them, over any zone and any calendar.
#![tactic(auto)]

pub mod carrying;
mod directions;
pub mod law;
pub mod measuring;
mod reaching;
pub mod setting;
mod start;
