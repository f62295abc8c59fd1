// Months of a calendar.

// A month of a year; months of a year count from 1.
#[derive(Clone, Copy, Debug, PartialEq, Eq)]
pub struct YearMonth {
    pub year: i32,
    pub month: u8,
}
