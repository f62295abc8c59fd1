// Day numbers.
ghost use Rattle.std.specs.Prelude.{◌≡◌, ◌≤◌, pos, ◌+ℤ◌, ◌*ℤ◌, ◌≤ℤ◌, option_map, unsigned_abs, IfSome};
ghost use Rattle.span_law.specs.Stepping.{in_days};
ghost use Rattle.calendar_steps.specs.Days.{is_day};

use years::days::LAST_DAY;

// Whether there is a day of that number.
pub(crate) fn is_day(number: u32) -> bool
    ensures { result ≡ is_day number }
{
    (1..=LAST_DAY).contains(&number)
}

// A day number, where there is such a day.
pub(crate) fn in_days(number: i64) -> Option<u32>
    ensures { option_map pos result ≡ in_days number }
{
    if (1..=i64::from(LAST_DAY)).contains(&number) {
        Some(number as u32)
    } else {
        None
    }
}

// The days of weeks and days together.
pub(crate) fn days_in(weeks: i32, days: i32) -> i64
    ensures is { result ≡ (pos 7 *ℤ weeks) +ℤ days }
    ensures small { unsigned_abs result ≤ 20000000000 }
{
    7 * i64::from(weeks) + i64::from(days)
}
