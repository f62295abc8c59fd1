// Whether a date lies past another in a direction.
ghost use Rattle.std.specs.Prelude.{◌≡◌};
ghost use Rattle.span_law.specs.Measuring.{date_le, date_not_past};

use span_law::way::Way;
use span_law::year_month::YearMonth;
use years::date::Date;

// Dates are ordered by year, then month, then day.
fn not_after(a: Date, b: Date) -> bool
    ensures { result ≡ date_le a.year a.month a.day b.year b.month b.day }
{
    (a.year, a.month, a.day) <= (b.year, b.month, b.day)
}

// Whether a month's day, uncut, is not past a date in a direction.
pub(crate) fn fits_uncut(way: Way, at: YearMonth, day: u8, end: Date) -> bool
    ensures { result ≡ date_not_past way at day end }
{
    let uncut = Date {
        year: at.year,
        month: at.month,
        day,
    };
    match way {
        Way::Onward => not_after(uncut, end),
        Way::Back => not_after(end, uncut),
    }
}
