// Carrying by spans and measuring them, as definitions over what a zone and a calendar mean, and the law that measured spans
// keep.
#![tactic(auto)]

pub mod unit;
pub mod way;
pub mod year_month;
