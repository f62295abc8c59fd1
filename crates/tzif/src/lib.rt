// The check of TZif files (RFC 8536), which hold a zone's transitions.
#![tactic(auto)]

pub mod check;
mod field;
pub mod layout;
