// Canonical texts of marks: `YYYY-MM-DDThh:mm:ss`, the fraction of the second, the offset from UTC, the zone's name in
// brackets and, but for `iso8601`, the calendar's in a tag.
#![tactic(auto)]

pub mod stamp;
pub mod write;
