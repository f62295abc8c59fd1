// Shelves: numbered slots in memory that the host lends.
#![tactic(auto)]

ghost use Rattle.std.specs.Prelude.{◌≡◌, ◌≤◌, length, Some, None, nat_lt, slice_index_or};
ghost use Rattle.shelf.specs.Laws.{AllEmpty, OnlySlotChanged};
ghost use Rattle.shelf.specs.Loans.{memory, lender};
ghost use Rattle.shelf.specs.Slots.{in_use, slot_count, slot_at, written, emptied};

// A shelf keeps slots numbered from 0 in memory that the host lends. A slot is empty or holds one thing. The shelf uses
// every slot lent, but of more than CAP only the first CAP: it neither reads nor writes the others.
#[derive(Drop)]
pub struct Shelf<'a, T, const CAP: usize> {
    slots: &'a mut [Option<T>],
}

impl<'a, T: Copy, const CAP: usize> Shelf<'a, T, CAP> {
    // A shelf over the lent memory, with every slot empty.
    pub fn new(slots: &'a mut [Option<T>]) -> Shelf<'a, T, CAP>
        ensures state { memory result ≡ emptied CAP slots.old }
        ensures law { AllEmpty CAP slots.old (memory result) }
        ensures lent { lender result ≡ slots.entry.ghost_name }
    {
        let count = slots.len().min(CAP);
        slots[..count].fill(None);
        Shelf { slots }
    }

    // The number of slots in use.
    pub fn len(&self) -> usize
        ensures value { result ≡ slot_count CAP (memory self.now) }
        ensures most { result ≤ CAP }
    {
        self.slots.len().min(CAP)
    }

    // The slots in use.
    pub fn slots(&self) -> &[Option<T>]
        ensures value { result.now ≡ in_use CAP (memory self.now) }
        ensures count { length result.now ≡ slot_count CAP (memory self.now) }
    {
        &self.slots[..self.len()]
    }

    // What slot i holds; None where it is empty or not there.
    pub fn get(&self, i: usize) -> Option<T>
        ensures { result ≡ slot_at CAP (memory self.now) i }
    {
        self.slots().get(i).copied().flatten()
    }

    // Puts v into slot i. The answer is whether there is such a slot: where there is none, nothing changes.
    #[must_use]
    pub fn put(&mut self, i: usize, v: T) -> bool
        ensures answer { result ≡ nat_lt i (slot_count CAP (memory self.old)) }
        ensures state { memory self.new ≡ written CAP (memory self.old) i (Some v) }
        ensures law { OnlySlotChanged CAP (memory self.old) i (Some v) (memory self.new) }
        ensures lent { lender self.new ≡ lender self.old }
    {
        self.write(i, Some(v))
    }

    // Empties slot i. The answer is whether there is such a slot: where there is none, nothing changes.
    #[must_use]
    pub fn clear(&mut self, i: usize) -> bool
        ensures answer { result ≡ nat_lt i (slot_count CAP (memory self.old)) }
        ensures state { memory self.new ≡ written CAP (memory self.old) i None }
        ensures law { OnlySlotChanged CAP (memory self.old) i None (memory self.new) }
        ensures lent { lender self.new ≡ lender self.old }
    {
        self.write(i, None)
    }

    // What put and clear share.
    fn write(&mut self, i: usize, slot: Option<T>) -> bool
        ensures answer { result ≡ nat_lt i (slot_count CAP (memory self.old)) }
        ensures state { memory self.new ≡ written CAP (memory self.old) i slot }
        ensures law { OnlySlotChanged CAP (memory self.old) i slot (memory self.new) }
        ensures lent { lender self.new ≡ lender self.old }
    {
        let there = i < self.len();
        if there {
            self.slots[i] = slot;
        }
        there
    }
}
