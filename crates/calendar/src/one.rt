// Questions to one calendar that is told by the rule of its years.
ghost use Rattle.std.specs.Prelude.{◌≡◌};
ghost use Rattle.calendar.specs.Calendars.{months_in, length_in, twin_in};
ghost use Rattle.calendar.specs.Singles.{calendar_of};

use years::rule::YearRule;

pub(crate) fn months_of<R: YearRule>(rule: &R, year: i32) -> Option<u8>
    ensures { result ≡ months_in (calendar_of (R.YearRule.years rule.now)) year }
{
    let year = rule.year(year)?;
    Some(year.months)
}

pub(crate) fn length_of<R: YearRule>(rule: &R, year: i32, month: u8) -> Option<u8>
    ensures { result ≡ length_in (calendar_of (R.YearRule.years rule.now)) year month }
{
    let year = rule.year(year)?;
    year.length_of(month)
}

pub(crate) fn twin_of<R: YearRule>(rule: &R, year: i32, month: u8, other: i32) -> Option<u8>
    ensures { result ≡ twin_in (calendar_of (R.YearRule.years rule.now)) year month other }
{
    let _length = length_of(rule, year, month)?;
    let _months = months_of(rule, other)?;
    Some(rule.twin_month(year, month, other))
}
