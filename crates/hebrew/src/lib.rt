// The Hebrew calendar, its months counted from Tishri: years 3761 to 13,760, and day 1 is the 18th of the fourth month
// of year 3761.
#![tactic(auto)]

ghost use Rattle.std.specs.Prelude.{◌≡◌, ◌+◌, ◌*◌, ◌/◌, ◌<◌, ◌≤◌, pos};
ghost use Rattle.hebrew.specs.Calendar.{leap, elapsed, molad_day, postponed, corrected, year_start, marheshvan, kislev, months_of, lengths, guess as year_guess, hebrew_years, moved as moved_month};
ghost use Rattle.years.specs.Rules.{year_of as rule_year};
ghost use Rattle.hebrew.specs.Twins.{hebrew_laws};

use years::days::LAST_DAY;
use years::rule::{MONTHS_MOST, Year, YearRule};

#[derive(Clone, Copy)]
pub struct Hebrew;

const FIRST_YEAR: i32 = 3761;

const PAST_YEAR: i32 = 13_761;

// the days of the calendar's own count up to day 0
const EPOCH: i32 = 1_373_427;

// Whether a year has thirteen months: seven of each nineteen have.
pub fn is_leap(year: u32) -> bool
    ensures { result ≡ leap year }
{
    (7 * u64::from(year) + 1) % 19 < 7
}

// The day of a year's molad, the mean new moon; or the day after, where no year begins on that day of the week.
fn new_year(year: u32) -> u32
    requires { (3760 ≤ year) × (year ≤ 13762) }
    ensures is { result ≡ postponed (molad_day (elapsed year)) }
    ensures fits { result < 10000000 }
{
    let months = (235 * year - 234) / 19;
    let molad = 29 * months + (12_084 + 13_753 * months) / 25_920;
    if 3 * (molad + 1) % 7 < 3 {
        molad + 1
    } else {
        molad
    }
}

// The first day of a year, from the days found for the year before, for itself and for the next. No year has 356 days or
// 382: the second postponement.
fn postpone(before: u32, here: u32, next: u32) -> u32
    requires { here < 10000000 }
    ensures is { result ≡ corrected before here next }
    ensures fits { result < 10000002 }
{
    if next.saturating_sub(here) == 356 {
        here + 2
    } else if here.saturating_sub(before) == 382 {
        here + 1
    } else {
        here
    }
}

// The first day of a year, and of the next.
fn starts_of(year: u32) -> (u32, u32)
    requires { (3761 ≤ year) × (year < 13761) }
    ensures this { result.0 ≡ year_start year }
    ensures next { result.1 ≡ year_start (year + 1) }
    ensures fits { result.0 < 10000002 }
    ensures order { result.0 ≤ result.1 }
    ensures few { result.1 ≤ result.0 + 385 }
{
    let before = new_year(year - 1);
    let here = new_year(year);
    let next = new_year(year + 1);
    let after = new_year(year + 2);
    (postpone(before, here, next), postpone(here, next, after))
}

// Marheshvan, longer in a complete year.
fn second_month(days: u16) -> u8
    ensures { result ≡ marheshvan days }
{
    if matches!(days, 355 | 385) { 30 } else { 29 }
}

// Kislev, shorter in a deficient year. One function for both months would take two lengths and two days, and say no less.
fn third_month(days: u16) -> u8
    ensures { result ≡ kislev days }
{
    if matches!(days, 353 | 383) { 29 } else { 30 }
}

// The lengths of the months: 30 and 29 days by turns but for the second and third, and in a leap year the sixth is one more.
fn lengths_of(leap_year: bool, days: u16) -> [u8; MONTHS_MOST]
    ensures { result ≡ lengths leap_year days }
{
    let second = second_month(days);
    let third = third_month(days);
    if leap_year {
        [30, second, third, 29, 30, 30, 29, 30, 29, 30, 29, 30, 29, 0]
    } else {
        [30, second, third, 29, 30, 29, 30, 29, 30, 29, 30, 29, 0, 0]
    }
}

fn months_of(leap_year: bool) -> u8
    ensures { result ≡ months_of leap_year }
{
    if leap_year { 13 } else { 12 }
}

fn year_of(year: u32) -> Year
    requires { (3761 ≤ year) × (year < 13761) }
    ensures { result ≡ rule_year hebrew_years (pos year) }
{
    let (start, next) = starts_of(year);
    let days = (next - start) as u16;
    let leap_year = is_leap(year);
    Year {
        start: start as i32 - EPOCH,
        days,
        months: months_of(leap_year),
        lengths: lengths_of(leap_year, days),
    }
}

// The year of a day, or one beside it: 400 years have about 146,099 days, and with 475 days added few guesses are wrong.
// Days past the last are taken for the last. A function for this and the Gregorian guess would take all their numbers, and
// say no less.
fn guess(day: u32) -> u32
    ensures is { result ≡ year_guess day }
    ensures fits { result ≤ 13761 }
{
    (day.min(LAST_DAY) + 475) * 400 / 146_099 + 3760
}

// What a month of one year is in another: `here` and `there` say whether they are leap years.
fn moved(here: bool, there: bool, month: u8) -> u8
    ensures { result ≡ moved_month here there month }
{
    match (here, there, month) {
        (false, true, 6..=12) => month + 1,
        (true, false, 7..) => month - 1,
        _ => month,
    }
}

impl YearRule for Hebrew {
    ghost years = { λ _. hebrew_years };

    ghost lawful = { λ _. hebrew_laws };

    fn first_year(&self) -> i32 {
        FIRST_YEAR
    }

    fn past_year(&self) -> i32 {
        PAST_YEAR
    }

    fn year(&self, year: i32) -> Option<Year> {
        if !(FIRST_YEAR..PAST_YEAR).contains(&year) {
            return None;
        }
        Some(year_of(year.unsigned_abs()))
    }

    fn estimate(&self, day: u32) -> i32 {
        guess(day) as i32
    }

    // Adar is the sixth month of a common year and the seventh of a leap year.
    fn twin_month(&self, year: i32, month: u8, other: i32) -> u8 {
        moved(
            is_leap(year.unsigned_abs()),
            is_leap(other.unsigned_abs()),
            month,
        )
    }
}
