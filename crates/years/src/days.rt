// The dates of day numbers, and the day numbers of dates, from the rule of a calendar's years.
ghost use Rattle.std.specs.Prelude.{◌≡◌, ◌*◌, ◌≤◌, pos, ◌+ℤ◌, ◌≤ℤ◌, Decides, int_le, int_lt};
ghost use Rattle.years.specs.Days.{DateAnswer, DayAnswer, InRange};
ghost use Rattle.years.specs.Lengths.{MonthAnswer, IntoAnswer, NumberAnswer, first_days};
ghost use Rattle.years.specs.Places.{Beside, LabelAnswer, PlaceAnswer};

use super::date::Date;
use super::rule::{Year, YearRule};

// The last day number; the first is 1.
pub const LAST_DAY: u32 = 3_652_059;

// The date of a day number; none for a number out of range.
pub fn date_of_day<R: YearRule>(rule: &R, day: u32) -> Option<Date>
    ensures { DateAnswer (R.YearRule.years rule.now) day result }
{
    let (number, year) = year_of_day(rule, day)?;
    let rest = days_since_start(&year, day);
    let (month, day) = month_and_day(&year, rest)?;
    Some(Date {
        year: number,
        month,
        day,
    })
}

// The day number of a date; none for a date that is no day's.
pub fn day_of_date<R: YearRule>(rule: &R, date: Date) -> Option<u32>
    ensures { DayAnswer (R.YearRule.years rule.now) date result }
{
    let year = rule.year(date.year)?;
    let into = days_into(&year, date.month, date.day)?;
    numbered(year.start, into)
}

// The year in which the day lies, with its number; none for a day out of range.
fn year_of_day<R: YearRule>(rule: &R, day: u32) -> Option<(i32, Year)>
    ensures { PlaceAnswer (R.YearRule.years rule.now) day result }
{
    if !in_range(day) {
        return None;
    }
    let guess = near_year(rule, day);
    let near = rule.year(guess)?;
    if starts_after(&near, day) {
        return labelled(rule, guess - 1);
    }
    if ends_by(&near, day) {
        return labelled(rule, guess + 1);
    }
    Some((guess, near))
}

// Whether the number is a day's.
fn in_range(day: u32) -> bool
    ensures { Decides result (InRange day) }
{
    (1..=LAST_DAY).contains(&day)
}

// A year of the calendar that is the day's, or one beside it.
fn near_year<R: YearRule>(rule: &R, day: u32) -> i32
    ensures { Beside (R.YearRule.years rule.now) day result }
{
    rule.estimate(day)
        .clamp(rule.first_year(), rule.past_year() - 1)
}

// A year of the calendar, with its number.
fn labelled<R: YearRule>(rule: &R, number: i32) -> Option<(i32, Year)>
    ensures { LabelAnswer (R.YearRule.years rule.now) number result }
{
    let year = rule.year(number)?;
    Some((number, year))
}

// Whether the year starts after the day.
fn starts_after(year: &Year, day: u32) -> bool
    ensures { result ≡ int_lt (pos day) year.now.start }
{
    i64::from(day) < i64::from(year.start)
}

// Whether the year is over by the day.
fn ends_by(year: &Year, day: u32) -> bool
    ensures { result ≡ int_le (year.now.start +ℤ pos year.now.days) (pos day) }
{
    i64::from(year.start) + i64::from(year.days) <= i64::from(day)
}

// How many days after the year's start the day comes. The cast is proved to lose nothing; `try_from` would add a case
// that cannot come.
fn days_since_start(year: &Year, day: u32) -> u32
    requires { (year.now.start ≤ℤ pos day) × (day ≤ 3652059) }
    ensures { year.now.start +ℤ pos result ≡ pos day }
{
    (i64::from(day) - i64::from(year.start)) as u32
}

// The month and the day of the day that comes `rest` days after the first of the year; none past the year's end. A loop,
// since what is left shrinks from month to month: a chain would need `scan` and `find_map` with the same two lines.
fn month_and_day(year: &Year, rest: u32) -> Option<(u8, u8)>
    ensures { MonthAnswer year.now rest result }
{
    let mut left = rest;
    for (before, length) in year.lengths.iter().enumerate() {
        let length = u32::from(*length);
        if left < length {
            return Some((before as u8 + 1, left as u8 + 1));
        }
        left -= length;
    }
    None
}

// How many days after the first of the year the day of the month comes; none where the year has no such day.
fn days_into(year: &Year, month: u8, day: u8) -> Option<u32>
    requires { year.now.months ≤ 14 }
    ensures { IntoAnswer year.now month day result }
{
    let length = year.length_of(month)?;
    if !(1..=length).contains(&day) {
        return None;
    }
    Some(days_of_months(year, usize::from(month) - 1) + u32::from(day) - 1)
}

// The days of the year's first months.
fn days_of_months(year: &Year, months: usize) -> u32
    requires { months ≤ 14 }
    ensures is { result ≡ first_days year.now months }
    ensures few { result ≤ 3570 }
{
    year.lengths[..months]
        .iter()
        .map(|length| u32::from(*length))
        .sum()
}

// The day number that comes `into` days after a year's start; none where it is out of range.
fn numbered(start: i32, into: u32) -> Option<u32>
    ensures { NumberAnswer (start +ℤ pos into) result }
{
    let number = u32::try_from(i64::from(start) + i64::from(into)).ok()?;
    in_range(number).then_some(number)
}
