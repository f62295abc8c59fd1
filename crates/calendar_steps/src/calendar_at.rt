// One calendar of a source.
ghost use Rattle.std.specs.Prelude.{◌<◌};

use calendar::source::CalendarSource;

// A calendar that its source has: its number is below the count, so that a question about it always has an answer.
#[derive(Drop)]
pub struct CalendarAt<'c, C: CalendarSource> {
    pub source: &'c C,
    pub number: usize,
    ghost there: { number < (C.CalendarSource.calendars source.now).count },
}
