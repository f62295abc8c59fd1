// What is printed of a row, and the counts of rows.
ghost use Rattle.std.specs.Prelude.{◌≡◌, ◌+◌, ◌<◌, if◌then◌else◌};

use super::compare::agrees;
use super::row::Row;
use hebrew::Hebrew;
use iso8601::Iso8601;
use std::fmt;
use years::date::Date;
use years::days::date_of_day;

// How a row compares with the calendars.
#[derive(Clone, Copy)]
pub struct Comparison {
    row: Row,
    // either may agree where the other doesn't
    gregorian_agrees: bool,
    hebrew_agrees: bool,
}

impl Comparison {
    pub(crate) fn of(row: Row) -> Comparison {
        Comparison {
            row,
            gregorian_agrees: agrees(&Iso8601, row.day, row.gregorian),
            hebrew_agrees: agrees(&Hebrew, row.day, row.hebrew),
        }
    }

    // Whether both calendars agree with the row.
    pub(crate) fn is_ok(&self) -> bool {
        self.gregorian_agrees && self.hebrew_agrees
    }
}

impl fmt::Display for Comparison {
    fn fmt<W: fmt::Write>(&self, f: &mut fmt::Formatter<W>) -> fmt::Result {
        let day = self.row.day;
        let gregorian = Given(date_of_day(&Iso8601, day));
        let hebrew = Given(date_of_day(&Hebrew, day));
        let verdict = match (self.gregorian_agrees, self.hebrew_agrees) {
            (true, true) => "ok",
            (false, true) => "Gregorian differs",
            (true, false) => "Hebrew differs",
            (false, false) => "both differ",
        };
        write!(f, "{day} {gregorian} {hebrew} {verdict}")
    }
}

// The date that a calendar gives a day, if any, to be printed: a type of its own, since Display can't be written for Option.
#[derive(Clone, Copy)]
struct Given(Option<Date>);

impl fmt::Display for Given {
    fn fmt<W: fmt::Write>(&self, f: &mut fmt::Formatter<W>) -> fmt::Result {
        match self.0 {
            Some(Date { year, month, day }) => write!(f, "{year}-{month}-{day}"),
            None => write!(f, "none"),
        }
    }
}

// How many rows were compared, and how many of them differ.
#[derive(Default, Drop)]
pub struct Tally {
    pub rows: u32,
    pub differ: u32,
}

impl Tally {
    // Counts one more row; past the largest number the counts stay as they are.
    pub(crate) fn note(&mut self, ok: bool)
        ensures rows { self.old.rows < 4294967295 → self.new.rows ≡ self.old.rows + 1 }
        ensures differ { self.old.differ < 4294967295 → self.new.differ ≡ self.old.differ + (if ok then 0 else 1) }
    {
        self.rows = self.rows.saturating_add(1);
        if !ok {
            self.differ = self.differ.saturating_add(1);
        }
    }
}
