// The Gregorian calendar, carried back to year 1: years 1 to 9999, and day 1 is 1 January of year 1.
#![tactic(auto)]

ghost use Rattle.std.specs.Prelude.{◌≡◌, ◌+◌, ◌*◌, ◌/◌, ◌≤◌};
ghost use Rattle.iso8601.specs.Gregorian.{leap, lengths, start_of, guess as year_guess, gregorian_years};
ghost use Rattle.iso8601.specs.Twins.{gregorian_laws};

use years::days::LAST_DAY;
use years::rule::{MONTHS_MOST, Year, YearRule};

#[derive(Clone, Copy)]
pub struct Iso8601;

const FIRST_YEAR: i32 = 1;

const PAST_YEAR: i32 = 10_000;

fn is_leap(year: u32) -> bool
    ensures { result ≡ leap year }
{
    year % 4 == 0 && (year % 100 != 0 || year % 400 == 0)
}

// The day number of 1 January.
fn start_of(year: u32) -> u32
    requires { (1 ≤ year) × (year ≤ 10000) }
    ensures is { result ≡ start_of year }
    ensures fits { result ≤ 3652060 }
{
    let before = year - 1;
    365 * before + before / 4 - before / 100 + before / 400 + 1
}

// The lengths of the months, January first.
fn lengths_of(leap_year: bool) -> [u8; MONTHS_MOST]
    ensures { result ≡ lengths leap_year }
{
    let february = if leap_year { 29 } else { 28 };
    [31, february, 31, 30, 31, 30, 31, 31, 30, 31, 30, 31, 0, 0]
}

// The year of a day, or one beside it: 400 years have 146,097 days. Days past the last are taken for the last.
fn guess(day: u32) -> u32
    ensures is { result ≡ year_guess day }
    ensures fits { result ≤ 10000 }
{
    day.min(LAST_DAY) * 400 / 146_097 + 1
}

impl YearRule for Iso8601 {
    ghost years = { λ _. gregorian_years };

    ghost lawful = { λ _. gregorian_laws };

    fn first_year(&self) -> i32 {
        FIRST_YEAR
    }

    fn past_year(&self) -> i32 {
        PAST_YEAR
    }

    fn year(&self, year: i32) -> Option<Year> {
        if !(FIRST_YEAR..PAST_YEAR).contains(&year) {
            return None;
        }
        let number = year.unsigned_abs();
        let leap_year = is_leap(number);
        let days = if leap_year { 366 } else { 365 };
        let start = start_of(number) as i32;
        Some(Year {
            start,
            days,
            months: 12,
            lengths: lengths_of(leap_year),
        })
    }

    fn estimate(&self, day: u32) -> i32 {
        guess(day) as i32
    }

    // Every year has the same months.
    fn twin_month(&self, _year: i32, month: u8, _other: i32) -> u8 {
        month
    }
}
