// Walks over the changes of a zone.
ghost use Rattle.std.specs.Prelude.{◌≡◌, None};
ghost use Rattle.zone_rule.specs.Steps.{offset_at, is_after, rising, alters_at, change_in};

use crate::step::Step;
use crate::steps::Offsets;
use zone::offset::is_offset;

fn is_after(last: Option<i64>, at: i64) -> bool
    ensures { result ≡ is_after last at }
{
    last < Some(at)
}

// Whether the changes come in strictly rising order, to offsets that a zone may have: one walk for both tests.
pub(crate) fn rises(changes: &[Step]) -> bool
    ensures { result ≡ rising None changes.now }
{
    let mut last = None;
    for c in changes {
        if !is_after(last, c.at) {
            return false;
        }
        if !is_offset(c.offset) {
            return false;
        }
        last = Some(c.at);
    }
    true
}

fn alters(offset: i32, after: i64, at: i64, next: i32) -> bool
    ensures { result ≡ alters_at offset after at next }
{
    after < at && offset != next
}

impl Offsets<'_> {
    // The offset at a second. At most 8 changes: they are walked over, as the change question has to.
    pub(crate) fn at(&self, second: i64) -> i32
        ensures { result ≡ offset_at self.now.first self.now.changes.now second }
    {
        let mut offset = self.first;
        for c in self.changes {
            if second < c.at {
                return offset;
            }
            offset = c.offset;
        }
        offset
    }

    // The first change of offset after one second and before another. It needs the offset before each change, and so walks.
    pub(crate) fn change(&self, after: i64, before: i64) -> Option<i64>
        ensures { result ≡ change_in self.now.first self.now.changes.now after before }
    {
        let mut offset = self.first;
        for c in self.changes {
            if before <= c.at {
                return None;
            }
            if alters(offset, after, c.at, c.offset) {
                return Some(c.at);
            }
            offset = c.offset;
        }
        None
    }
}
