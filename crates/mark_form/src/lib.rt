// The form of mark texts: `YYYY-MM-DDThh:mm:ss`, perhaps `.` and 1 to 6 digits, then `Z` or an offset, then `[name]` and tags
// `[key=value]`. `!` after a `[` marks what stands there critical. What the text says is read off, and not yet judged.
#![tactic(auto)]

mod bytes;
pub mod draft;
pub mod layout;
pub mod read;
mod stage;
mod steps;
