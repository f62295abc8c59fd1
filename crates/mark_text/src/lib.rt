// Marks and their texts: reading a text over any zone and calendar source, and writing the canonical text of a mark.
#![tactic(auto)]

mod fields;
mod lookup;
pub mod mark;
pub mod read;
mod stamping;
pub mod write;
