// The rule of a zone of steps.
ghost use Rattle.std.specs.Prelude.{◌≡◌};
ghost use Rattle.zone_rule.specs.Steps.{is_well_made, steps_tell};
ghost use Rattle.zone_rule.specs.Telling.{told_by};
ghost use Rattle.zone_rule.specs.StepLaws.{told_sound};

use crate::rule::ZoneRule;
use crate::step::Step;
use crate::steps::{Offsets, Steps};
use crate::walk::rises;
use zone::offset::is_offset;
use zone::value::Value;

// The most changes of a zone of steps.
pub const STEPS_MOST: usize = 8;

// A first offset and changes stand beside each other here and in `new`, since they are not judged yet, and so no `Offsets`.
fn is_well_made(first: i32, changes: &[Step]) -> bool
    ensures { result ≡ is_well_made first changes.now }
{
    changes.len() <= STEPS_MOST && is_offset(first) && rises(changes)
}

impl<'a> Steps<'a> {
    // The zone with the offset `first` up to the first change. Badly made, it is blank throughout, with cause 1.
    pub fn new(first: i32, changes: &'a [Step]) -> Steps<'a>
        ensures { told_by result ≡ steps_tell first changes.now }
    {
        let offsets = if is_well_made(first, changes) {
            Some(Offsets { first, changes })
        } else {
            None
        };
        Steps { offsets }
    }
}

impl ZoneRule for Steps<'_> {
    ghost told = { told_by };

    ghost sound = { λ z s. told_sound z.offsets s };

    fn value(&self, second: i64) -> Value {
        match self.offsets {
            Some(offsets) => Value::Offset(offsets.at(second)),
            None => Value::BADLY_MADE,
        }
    }

    fn change(&self, after: i64, before: i64) -> Option<i64> {
        let offsets = self.offsets?;
        offsets.change(after, before)
    }
}
