// A zone by a first offset and changes of it.
ghost use Rattle.std.specs.Prelude.{◌≡◌, true};
ghost use Rattle.zone_rule.specs.Steps.{is_well_made};

use crate::named_zone::NamedZone;
use crate::step::Step;

// A first offset and at most 8 changes, at strictly rising seconds, to offsets that a zone may have.
#[derive(Clone, Copy)]
pub(crate) struct Offsets<'a> {
    pub(crate) first: i32,
    pub(crate) changes: &'a [Step],
    ghost well_made: { is_well_made first changes.now ≡ true },
}

// A zone of steps: its offsets, or none where it is badly made, which is judged once.
#[derive(Clone, Copy)]
pub struct Steps<'a> {
    pub(crate) offsets: Option<Offsets<'a>>,
}

// A step zone is a source: of one zone, told by its steps under a name.
pub type StepZone<'s> = NamedZone<'s, Steps<'s>>;
