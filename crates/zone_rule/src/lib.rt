// Zones told by a rule: what one zone says of every second, and the source that it makes under a name.
#![tactic(auto)]

pub mod named_zone;
mod range;
pub mod rule;
pub mod step;
pub mod step_rule;
pub mod steps;
mod walk;
