// The order of dates.
ghost use Rattle.calendar.specs.Orders.{OrderIs};

use crate::source::CalendarSource;
use years::date::Date;

// Whether one date of a calendar comes before another, by year, then month, then day: their days are ordered alike. None
// where one is no day's date.
pub fn comes_before<S: CalendarSource>(
    source: &S,
    calendar: usize,
    date: Date,
    other: Date,
) -> Option<bool>
    ensures { OrderIs (S.CalendarSource.calendars source.now) calendar date other result }
{
    let first = source.day(calendar, date)?;
    let second = source.day(calendar, other)?;
    Some(first < second)
}
