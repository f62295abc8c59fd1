// What every layer shares: refusals, instants, the parts and limits of a span, and signed division with its remainder.
#![tactic(auto)]

pub mod divisor;
pub mod fault;
pub mod instant;
pub mod span;
pub mod splits;
