// Calendar sources: tables of calendars, known by what they mean.
#![tactic(auto)]

pub mod alike;
pub mod beside;
pub mod named;
mod naming;
mod one;
pub mod order;
pub mod question;
pub mod single;
pub mod source;
