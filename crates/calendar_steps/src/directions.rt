// Numbers and days in a direction.
ghost use Rattle.std.specs.Prelude.{◌≡◌, ◌≤◌};
ghost use Rattle.span_law.specs.Stepping.{signed};
ghost use Rattle.calendar_steps.specs.Days.{leads};

use span_law::way::Way;

// A number in a direction.
pub(crate) fn with_way(way: Way, number: u32) -> i32
    requires { number ≤ 2000000000 }
    ensures { result ≡ signed way number }
{
    match way {
        Way::Onward => number as i32,
        Way::Back => -(number as i32),
    }
}

// Whether the direction leads from one day to another; it does where they are the same.
pub(crate) fn leads(way: Way, start: u32, end: u32) -> bool
    ensures { result ≡ leads way start end }
{
    match way {
        Way::Onward => start <= end,
        Way::Back => end <= start,
    }
}
