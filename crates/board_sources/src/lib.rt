// The zones and the calendars of `board`.
#![tactic(auto)]

pub mod calendars;
pub mod law;
pub mod zones;
