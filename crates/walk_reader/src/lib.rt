// The walk of one store as the Rust's `BitIter`: a reader that holds the lent store beside its cursor.
#![tactic(auto)]

ghost use Rattle.std.specs.Prelude.{◌≡◌};
ghost use Rattle.walk.specs.Calls.{next_in};
ghost use Rattle.walk_batches.specs.Calls.{started_of};
ghost use Rattle.walk_reader.specs.Readers.{told};

use walk::{Cursor, Next};

// The lent store, and where its walk stands.
#[derive(Drop)]
pub struct BitIter<'a> {
    pub store: &'a [u64],
    pub cursor: Cursor,
}

// A step without its cursor: the words read by this call, and its answer.
#[derive(Clone, Copy)]
pub struct Told {
    pub reads: u64,
    pub answer: Next,
}

// A reader that is started: the store, and the cursor that `start` leaves of a zero cursor.
pub fn iter(store: &[u64]) -> BitIter<'_>
    ensures { (result.store ≡ store.entry) × (result.cursor ≡ started_of store.now) }
{
    BitIter {
        store,
        cursor: walk_batches::started(store),
    }
}

impl BitIter<'_> {
    // One step of the walk, at a budget of word reads: the reader keeps the cursor.
    pub fn next(&mut self, budget: u64) -> Told
        ensures { (self.new.store ≡ self.old.store)
            × (self.new.cursor ≡ (next_in self.old.store.now self.old.cursor budget).cursor)
            × (result ≡ told (next_in self.old.store.now self.old.cursor budget)) }
    {
        let s = self.cursor.next(self.store, budget);
        self.cursor = s.cursor;
        Told {
            reads: s.reads,
            answer: s.answer,
        }
    }
}

// The first step of a walk of a store: a reader is made, and one step is taken of it.
pub fn first(store: &[u64], budget: u64) -> Told
    ensures { result ≡ told (next_in store.now (started_of store.now) budget) }
{
    iter(store).next(budget)
}
