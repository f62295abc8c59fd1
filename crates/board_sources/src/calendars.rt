// The calendars of `board`.
ghost use Rattle.std.specs.Prelude.{◌≡◌};
ghost use Rattle.board_sources.specs.Sources.{board_calendars};

use calendar::beside::Beside;
use calendar::named::Named;
use calendar::single::Single;
use calendar::source::CalendarSource;
use hebrew::Hebrew;
use iso8601::Iso8601;

// The Gregorian calendar is a source: of one calendar, told by its rule under a name.
pub type GregorianCalendar = Single<Iso8601>;

// The Hebrew calendar is a source: of one calendar, told by its rule under a name.
pub type HebrewCalendar = Single<Hebrew>;

// `iso8601` and `hebrew`, side by side.
pub type BoardCalendars = Beside<GregorianCalendar, HebrewCalendar>;

pub fn calendars() -> BoardCalendars
    ensures { (⟦<BoardCalendars as CalendarSource>⟧).calendars result ≡ board_calendars }
{
    Beside {
        first: Single {
            name: Named::new(b"iso8601"),
            rule: Iso8601,
        },
        second: Single {
            name: Named::new(b"hebrew"),
            rule: Hebrew,
        },
    }
}
