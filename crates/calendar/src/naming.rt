// Names of calendars: making and reading them.
ghost use Rattle.std.specs.Prelude.{◌≡◌, is_ok};
ghost use Rattle.calendar.specs.Namings.{name_of, held_name};
ghost use Rattle.names.specs.Scanning.{read_calendar_name};

use crate::named::Named;
use names::{CALENDAR_NAME_LIMIT, read_calendar_name};

impl Named {
    // The name; one that is too long is held as none at all, and is out of form as it was.
    pub fn new(name: &[u8]) -> Named
        ensures { name_of result ≡ held_name name.now }
    {
        let held = if name.len() <= CALENDAR_NAME_LIMIT {
            name
        } else {
            b""
        };
        let mut bytes = [0u8; CALENDAR_NAME_LIMIT];
        bytes[..held.len()].copy_from_slice(held);
        Named {
            bytes,
            length: held.len(),
            form: read_calendar_name(held),
        }
    }

    pub fn bytes(&self) -> &[u8]
        ensures { result.now ≡ name_of self.now }
    {
        &self.bytes[..self.length]
    }

    pub fn is_in_form(&self) -> bool
        ensures { result ≡ is_ok (read_calendar_name (name_of self.now)) }
    {
        self.form.is_ok()
    }
}
