// What a calendar is told by: the rule of its years.
ghost use Rattle.std.specs.Prelude.{◌≡◌};
ghost use Rattle.years.specs.Dates.{Years};
ghost use Rattle.years.specs.Days.{YearsLaws};
ghost use Rattle.years.specs.Rules.{year_in, length_in};

// The most months of a year.
pub const MONTHS_MOST: usize = 14;

// One year: the day number on which it starts (which may lie before day 1), its days, its months, and the length of each
// month; the lengths past the months are 0. An array, so that a year is Copy and takes no heap.
#[derive(Clone, Copy, Debug, PartialEq, Eq)]
pub struct Year {
    pub start: i32,
    pub days: u16,
    pub months: u8,
    pub lengths: [u8; MONTHS_MOST],
}

// The rule of a calendar's years. The meaning is the ghost member `years`: each answer is told by it. The law is all that a
// calendar owes: its years fit together, the first is that of day 1 and the last that of the last day, twins are months of
// their years, and the guess at a day's year is at most one year off.
pub trait YearRule {
    ghost years: { Self → Years };

    fn first_year(&self) -> i32
        ensures { result ≡ (years self.now).first };

    // one past the last year
    fn past_year(&self) -> i32
        ensures { result ≡ (years self.now).past };

    // A year of the calendar; none for one that isn't there.
    fn year(&self, year: i32) -> Option<Year>
        ensures { result ≡ year_in (years self.now) year };

    // A guess at the year of a day number; of a day in range it is at most one year off.
    fn estimate(&self, day: u32) -> i32
        ensures { result ≡ (years self.now).guess day };

    // The twin of a month in another year.
    fn twin_month(&self, year: i32, month: u8, other: i32) -> u8
        ensures { result ≡ (years self.now).twin year month other };

    ghost lawful: { (c : Self) → YearsLaws (years c) };
}

impl Year {
    // The length of a month; none where the year has no such month.
    pub fn length_of(&self, month: u8) -> Option<u8>
        ensures { result ≡ length_in self.now month }
    {
        if !(1..=self.months).contains(&month) {
            return None;
        }
        self.lengths.get(usize::from(month) - 1).copied()
    }
}
