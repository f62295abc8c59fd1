// The rows of a table: columns parted by tabs, of which the first are a day number, its Gregorian date and its Hebrew
// date. Further columns are passed over.
ghost use Rattle.std.specs.Prelude.{◌≡◌, ◌+◌, ◌-◌, ◌*◌, ◌%◌, ◌<◌, ◌≤◌, Some};

use hebrew::is_leap;
use years::date::Date;

#[derive(Clone, Copy)]
pub struct Row {
    pub day: u32,
    pub gregorian: Date,
    pub hebrew: Date,
}

// Whether the line is a row, and not a comment.
pub(crate) fn is_row(line: &str) -> bool {
    !line.starts_with('#')
}

// The row that a line tells, its Hebrew month counted from Tishri; none for a line in another form.
pub(crate) fn read_row(line: &str) -> Option<Row> {
    let mut columns = line.split('\t');
    let day = columns.next()?.parse::<u32>().ok()?;
    let gregorian = read_date(columns.next()?)?;
    let published = read_date(columns.next()?)?;
    let month = month_from_tishri(published.year.unsigned_abs(), published.month)?;
    let hebrew = Date { month, ..published };
    Some(Row {
        day,
        gregorian,
        hebrew,
    })
}

// The date that a text tells as year-month-day.
fn read_date(text: &str) -> Option<Date> {
    let (year, rest) = text.split_once('-')?;
    let (month, day) = rest.split_once('-')?;
    Some(Date {
        year: year.parse::<i32>().ok()?,
        month: month.parse::<u8>().ok()?,
        day: day.parse::<u8>().ok()?,
    })
}

// A Hebrew month counted from Tishri, given as it is counted from Nisan; none for a number that is no month's.
fn month_from_tishri(year: u32, month: u8) -> Option<u8>
    ensures early { 7 ≤ month → month ≤ 13 → result ≡ Some (month - 6) }
    ensures late_common { 1 ≤ month → month ≤ 6 → 7 ≤ (7 * year + 1) % 19 → result ≡ Some (month + 6) }
    ensures late_leap { 1 ≤ month → month ≤ 6 → (7 * year + 1) % 19 < 7 → result ≡ Some (month + 7) }
{
    match month {
        7..=13 => Some(month - 6),
        1..=6 if is_leap(year) => Some(month + 7),
        1..=6 => Some(month + 6),
        _ => None,
    }
}
