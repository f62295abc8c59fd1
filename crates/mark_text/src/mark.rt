// Marks.

// A mark: an instant, in microseconds from 1970-01-01T00:00:00Z, with a zone and a calendar, by their numbers in the sources.
// The host lends the memory in which marks are kept, so any three numbers may stand in one; which of them are there is a
// question to the sources.
#[derive(Clone, Copy, Debug, Default, PartialEq, Eq)]
pub struct Mark {
    pub instant: i64,
    pub zone: u8,
    pub calendar: u8,
}
