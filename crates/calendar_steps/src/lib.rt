// Steps over one calendar of a source: the day that the date parts of a span lead to, and the date parts between two days.
#![tactic(auto)]

pub mod calendar_at;
mod calendar_questions;
mod dated;
mod dates_between;
mod day_numbers;
mod day_steps;
mod directions;
mod fits;
mod month_steps;
mod months_between;
mod whole_parts;
mod year_steps;
