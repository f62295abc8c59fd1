// The look-up in a file's second block.
ghost use Rattle.std.specs.Prelude.{◌≡◌, ℕ, List, int_le, slice_index_or, ◌+◌, ◌*◌, ◌<◌, ◌≤◌, length};
ghost use Rattle.tzif.specs.Fields.{second8};
ghost use Rattle.file_zone.specs.Blocks.{second_at, index_of, offset_of, offset_after, Passed};
ghost use Rattle.file_zone.specs.Telling.{first_in, steps_in};
ghost use Rattle.zone_rule.specs.Steps.{offset_at, change_in};

use crate::block::Block;

// From `second` on, the type `index` holds.
#[derive(Clone, Copy)]
struct Transition {
    second: i64,
    index: usize,
}

// tzif has the like at a place in a file, with the premise that it is whole, which no public function may have.
fn second(bytes: &[u8; 8]) -> i64
    ensures { result ≡ second8 bytes.now 0 }
{
    i64::from_be_bytes(*bytes)
}

impl Block<'_> {
    fn seconds(&self) -> &[[u8; 8]]
        ensures value { (k : ℕ) (d : List ℕ) → k < self.now.times → second8 (slice_index_or result.now k d) 0 ≡ second_at self.now.bytes.now k }
        ensures len { length result.now ≡ self.now.times }
    {
        self.bytes[..8 * self.times].as_chunks().0
    }

    // Transition k: its second and its type index stand apart.
    fn transition(&self, k: usize) -> Transition
        requires { k < self.now.times }
        ensures second { result.second ≡ second_at self.now.bytes.now k }
        ensures index { result.index ≡ index_of self.now.bytes.now self.now.times k }
    {
        let second = second(&self.seconds()[k]);
        let index = usize::from(self.bytes[8 * self.times + k]);
        Transition { second, index }
    }

    // How many of the transitions are not after a second: of 2,000 it looks at 12.
    fn passed(&self, at: i64) -> usize
        ensures { Passed self.now.bytes.now self.now.times at result }
    {
        self.seconds().partition_point(
            |t|
                ensures { result ≡ int_le (second8 t.now 0) at }
            { second(t) <= at },
        )
    }

    // The offset of a type. As with `second`, tzif has the like with a premise.
    fn type_offset(&self, index: usize) -> i32
        requires { (9 * self.now.times + 6 * index + 6) ≤ length self.now.bytes.now }
        ensures { result ≡ offset_of self.now.bytes.now self.now.times index }
    {
        let record = &self.bytes[9 * self.times + 6 * index..];
        i32::from_be_bytes(record.as_chunks().0[0])
    }

    // The offset after the first `count` transitions.
    fn offset_after(&self, count: usize) -> i32
        requires { count ≤ self.now.times }
        ensures { result ≡ offset_after self.now.bytes.now self.now.times count }
    {
        if count == 0 {
            self.type_offset(0)
        } else {
            self.type_offset(self.transition(count - 1).index)
        }
    }

    // The offset at a second.
    pub(crate) fn look_up(&self, at: i64) -> i32
        ensures { result ≡ offset_at (first_in self.now) (steps_in self.now) at }
    {
        self.offset_after(self.passed(at))
    }

    // The first second after `after` and before `before` from which another offset holds. Transitions that leave the offset
    // as it was are passed over.
    pub(crate) fn next_change(&self, after: i64, before: i64) -> Option<i64>
        ensures { result ≡ change_in (first_in self.now) (steps_in self.now) after before }
    {
        let start = self.passed(after);
        let offset = self.offset_after(start);
        // two tests end the loop, one without an answer, which a chain would need two closures for
        for k in start..self.times {
            let t = self.transition(k);
            if before <= t.second {
                return None;
            }
            if self.type_offset(t.index) != offset {
                return Some(t.second);
            }
        }
        None
    }
}
