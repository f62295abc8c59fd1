// The fields of a mark text, each within its range.
ghost use Rattle.std.specs.Prelude.{◌≡◌, ◌<◌, ◌≤◌, ◌+ℤ◌, ◌*ℤ◌, ◌≤ℤ◌, pos, negsuc, IfOk, IfSome};
ghost use Rattle.calendar.specs.Singles.{day_number};
ghost use Rattle.iso8601.specs.Gregorian.{gregorian_years};
ghost use Rattle.local_times.specs.Locals.{count_of};
ghost use Rattle.mark_text.specs.Fields.{date_of, wrong_date, day_said, clock_said, shift_said, offset_said, fields_said, shift_or_utc, second_said, instant_said, SignFits, FieldsFit, ShiftFits};

use iso8601::Iso8601;
use local_times::meeting::EPOCH_DAY;
use mark_form::draft::{Draft, Said};
use timebase::fault::Fault;
use years::date::Date;
use years::days::day_of_date;

// What a text says of its instant: a day number, a clock time in seconds and microseconds, and the offset from UTC in seconds,
// if it says one.
#[derive(Clone, Copy)]
pub(crate) struct Fields {
    pub(crate) day: u32,
    pub(crate) clock: u32,
    pub(crate) micros: u32,
    pub(crate) offset: Option<i32>,
}

// The number of the day whose date a text says; none where there is no such date.
fn day_of(draft: &Draft) -> Option<u32>
    ensures value { result ≡ day_number gregorian_years (date_of draft.now) }
    ensures inside { IfSome result (λ n. (1 ≤ n) × (n ≤ 3652059)) }
{
    if draft.year > 9_999 || draft.month > 12 || draft.day > 31 {
        return None;
    }
    let date = Date {
        year: draft.year as i32,
        month: draft.month as u8,
        day: draft.day as u8,
    };
    day_of_date(&Iso8601, date)
}

// The first digit of the first wrong field of a date that is none: there is no year 0, and a year has 12 months.
fn wrong_date(draft: &Draft) -> usize
    ensures { result ≡ wrong_date draft.now }
{
    if draft.year == 0 {
        0
    } else if (1..=12).contains(&draft.month) {
        8
    } else {
        5
    }
}

fn read_day(draft: &Draft) -> Result<u32, Fault>
    ensures value { result ≡ day_said draft.now }
    ensures inside { IfOk result (λ n. (1 ≤ n) × (n ≤ 3652059)) }
{
    match day_of(draft) {
        Some(day) => Ok(day),
        None => Err(Fault::NoSuchField {
            at: wrong_date(draft),
        }),
    }
}

// The seconds of a day that an hour, a minute and a second come to; the first that is past its range is refused at its place.
fn read_clock(hour: u32, minute: u32, second: u32, at: usize) -> Result<u32, Fault>
    requires { at ≤ 1000 }
    ensures value { result ≡ clock_said at hour minute second }
    ensures inside { IfOk result (λ n. n ≤ 86399) }
{
    if hour >= 24 {
        return Err(Fault::NoSuchField { at });
    }
    if minute >= 60 {
        return Err(Fault::NoSuchField { at: at + 3 });
    }
    if second >= 60 {
        return Err(Fault::NoSuchField { at: at + 6 });
    }
    Ok(hour * 3_600 + minute * 60 + second)
}

// The offset in seconds.
fn read_shift(said: &Said) -> Result<i32, Fault>
    requires { said.now.sign < 90 }
    ensures value { result ≡ shift_said said.now }
    ensures inside { IfOk result ShiftFits }
{
    let seconds = read_clock(said.hours, said.minutes, said.seconds, said.sign + 1)? as i32;
    Ok(if said.minus { -seconds } else { seconds })
}

fn read_offset(said: Option<Said>) -> Result<Option<i32>, Fault>
    requires { IfSome said (λ s. s.sign < 90) }
    ensures value { result ≡ offset_said said }
    ensures inside { IfOk result (λ o. IfSome o ShiftFits) }
{
    match said {
        None => Ok(None),
        Some(said) => Ok(Some(read_shift(&said)?)),
    }
}

// The fields of a text, or the first digit of the first that is past its range, in the order of the text.
pub(crate) fn read_fields(draft: &Draft) -> Result<Fields, Fault>
    requires { SignFits draft.now }
    ensures value { result ≡ fields_said draft.now }
    ensures inside { IfOk result FieldsFit }
{
    let day = read_day(draft)?;
    let clock = read_clock(draft.hour, draft.minute, draft.second, 11)?;
    let offset = read_offset(draft.offset)?;
    Ok(Fields {
        day,
        clock,
        micros: draft.micros,
        offset,
    })
}

// The offset, which is 0 where none is said, since the clock is UTC then.
fn shift_or_utc(offset: Option<i32>) -> i32
    requires { IfSome offset ShiftFits }
    ensures value { result ≡ shift_or_utc offset }
    ensures inside { ShiftFits result }
{
    offset.unwrap_or(0)
}

// The said local time in seconds, as it would be in UTC.
fn local_second(fields: &Fields) -> i64
    requires { FieldsFit fields.now }
    ensures value { result ≡ count_of (pos fields.now.day) fields.now.clock }
    ensures inside { (negsuc 99999999999 ≤ℤ result) × (result ≤ℤ pos 999999999998) }
{
    (i64::from(fields.day) - EPOCH_DAY) * 86_400 + i64::from(fields.clock)
}

// The second of the instant: the said local time less the said offset.
fn second_of(fields: &Fields) -> i64
    requires { FieldsFit fields.now }
    ensures value { result ≡ second_said fields.now }
    ensures inside { (negsuc 999999999999 ≤ℤ result) × (result ≤ℤ pos 1000000999999) }
{
    local_second(fields) - i64::from(shift_or_utc(fields.offset))
}

// A second and the microseconds into it, in microseconds.
fn micros_of(second: i64, micros: u32) -> i64
    requires { (negsuc 999999999999 ≤ℤ second) × (second ≤ℤ pos 1000000999999) }
    ensures { result ≡ (second *ℤ pos 1000000) +ℤ pos micros }
{
    second * 1_000_000 + i64::from(micros)
}

// The instant, in microseconds.
pub(crate) fn instant_of(fields: &Fields) -> i64
    requires { FieldsFit fields.now }
    ensures { result ≡ instant_said fields.now }
{
    micros_of(second_of(fields), fields.micros)
}
