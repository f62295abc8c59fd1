// The forms of names.
#![tactic(auto)]

ghost use Rattle.std.specs.Prelude.{◌≡◌};
ghost use Rattle.reading.specs.Places.{Answers, AnswersWithin};
ghost use Rattle.names.specs.Names.{CalendarName};
ghost use Rattle.names.specs.Scanning.{stepped, ended, scan_calendar_name, read_calendar_name};

use reading::{Misread, Scan, read, read_within};

mod zone_form;
mod zone_name;
mod zone_naming;

pub use zone_form::{ZONE_NAME_LIMIT, read_zone_name, scan_zone_name};
pub use zone_name::ZoneName;

// The most bytes of a calendar's name.
pub const CALENDAR_NAME_LIMIT: usize = 16;

// How far a name has been read: runs of letters and digits, joined by `-`.
#[derive(Clone, Copy)]
pub enum Progress {
    // a run has to begin
    Begin,
    // in a run
    Run,
}

// A name is in form.
#[derive(Clone, Copy)]
pub struct InForm;

impl Scan for Progress {
    type Value = InForm;

    ghost stepped = { stepped };

    ghost ended = { ended };

    fn step(self, _at: usize, byte: u8) -> Option<Progress> {
        match self {
            _ if byte.is_ascii_alphanumeric() => Some(Progress::Run),
            Progress::Run if byte == b'-' => Some(Progress::Begin),
            _ => None,
        }
    }

    fn end(self) -> Option<InForm> {
        match self {
            Progress::Begin => None,
            Progress::Run => Some(InForm),
        }
    }
}

// Whether a name of any length has the form of calendars' names, or where it goes wrong.
pub fn scan_calendar_name(name: &[u8]) -> Result<InForm, Misread>
    ensures value { result ≡ scan_calendar_name name.now }
    ensures grammar { Answers CalendarName name.now result }
{
    read(Progress::Begin, name)
}

// Whether a calendar's name is in form and not too long, or where it goes wrong.
pub fn read_calendar_name(name: &[u8]) -> Result<InForm, Misread>
    ensures value { result ≡ read_calendar_name name.now }
    ensures grammar { AnswersWithin CalendarName 16 name.now result }
{
    read_within(Progress::Begin, name, CALENDAR_NAME_LIMIT)
}
