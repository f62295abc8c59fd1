// Known days of the calendars, and known moves between days, as theorems of the rules.
#![tactic(auto)]

ghost use Rattle.known_days.specs.Days.{GregorianDay, HebrewDay};
ghost use Rattle.known_days.specs.Known.{KnownDays};

// The contract is the point, and the code only carries it. The days hold of the rules themselves, and the moves of the
// zones and calendars of `board`, whatever its two files hold. The day on which the year 2000 began stands beside the list as
// an example; specs/Days.antt has the days, and specs/Moves.antt the moves.
pub fn known_days_hold()
    ensures example { (GregorianDay 730120 2000 1 1) × (HebrewDay 730120 5760 4 23) }
    ensures all { KnownDays }
{}
