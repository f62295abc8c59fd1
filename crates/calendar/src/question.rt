// Questions to a calendar source.

use years::date::Date;

// A question that a calendar source answers.
#[derive(Clone, Copy)]
pub enum Question<'q> {
    Count,
    Name {
        calendar: usize,
    },
    Find {
        name: &'q [u8],
    },
    FirstYear {
        calendar: usize,
    },
    LastYear {
        calendar: usize,
    },
    Months {
        calendar: usize,
        year: i32,
    },
    Length {
        calendar: usize,
        year: i32,
        month: u8,
    },
    Date {
        calendar: usize,
        day: u32,
    },
    Day {
        calendar: usize,
        date: Date,
    },
    Twin {
        calendar: usize,
        year: i32,
        month: u8,
        other: i32,
    },
}
