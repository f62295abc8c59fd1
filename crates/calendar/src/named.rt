// A calendar's name, held by value, with what was found of its form.
ghost use Rattle.std.specs.Prelude.{◌≡◌, ◌≤◌, length as size, take};
ghost use Rattle.names.specs.Scanning.{read_calendar_name};

use names::{CALENDAR_NAME_LIMIT, InForm};
use reading::Misread;

// A name of at most 16 bytes, and what was found of its form, which is judged once. An array with a length beside it, since the
// type stays Copy and takes the bytes of any loan.
#[derive(Clone, Copy)]
pub struct Named {
    pub(crate) bytes: [u8; CALENDAR_NAME_LIMIT],
    pub(crate) length: usize,
    pub(crate) form: Result<InForm, Misread>,
    ghost few: { length ≤ 16 },
    ghost judged: { form ≡ read_calendar_name (take length bytes) },
}
