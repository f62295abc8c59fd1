// Calendars by their years: where each year starts, its months and their lengths. From that alone follow the date of each
// day number and the number of each date.
#![tactic(auto)]

pub mod date;
pub mod days;
pub mod rule;
