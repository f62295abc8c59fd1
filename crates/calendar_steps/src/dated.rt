// Days with their dates.

use years::date::Date;

// A day number with its date.
#[derive(Clone, Copy)]
pub(crate) struct Dated {
    pub number: u32,
    pub date: Date,
}
