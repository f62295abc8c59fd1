// What a calendar says of a day number and the date that a table gives it.
ghost use Rattle.std.specs.Prelude.{Decides};
ghost use Rattle.years.specs.Days.{HasDate};

use years::date::Date;
use years::days::{date_of_day, day_of_date};
use years::rule::YearRule;

// Whether the calendar and the table agree, from the day to the date and from the date to the day: the date is the one that
// comes so many days after that of day 1.
pub(crate) fn agrees<R: YearRule>(rule: &R, day: u32, date: Date) -> bool
    ensures { Decides result (HasDate (R.YearRule.years rule.now) day date) }
{
    has_date(rule, day, date) && has_day(rule, date, day)
}

// Whether the calendar gives the day this date.
fn has_date<R: YearRule>(rule: &R, day: u32, date: Date) -> bool
    ensures { Decides result (HasDate (R.YearRule.years rule.now) day date) }
{
    date_of_day(rule, day) == Some(date)
}

// Whether the calendar gives the date this day. Each way has a promise of its own, so that a wrong test of either is refused.
fn has_day<R: YearRule>(rule: &R, date: Date, day: u32) -> bool
    ensures { Decides result (HasDate (R.YearRule.years rule.now) day date) }
{
    day_of_date(rule, date) == Some(day)
}
