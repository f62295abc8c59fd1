// Zone sources: tables of zones, known by what they mean.
#![tactic(auto)]

pub mod alike;
pub mod beside;
mod depth;
pub mod offset;
pub mod question;
pub mod source;
pub mod value;
