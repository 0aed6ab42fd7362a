// The walk of one store: the Rust's iter/mod.rs, `BitIter`, as a cursor by value whose calls hand it back.
#![tactic(auto)]

ghost use Rattle.std.specs.Prelude.{◌≡◌, ℕ, suc, ◌+◌, ◌%◌, ◌<◌, get_or};
ghost use Rattle.util.specs.Outcome.{Settled};
ghost use Rattle.store.specs.Layout.{top, top_most};
ghost use Rattle.walk.specs.Calls.{step_paper, start_of, next_of, fits};
ghost use Rattle.walk.specs.Steps.{refusal_of, refusal_on, is_reading, Lowers, Finishes};
ghost use Rattle.walk.specs.Checked.{Checked};
ghost use Rattle.walk.specs.Walk.{kind, first_bit, place_at, handed, handled, start_at};

mod over;

pub use over::{Layers, Ready, Words};
use store::Refusal;
pub use walk_masks::are_prefixes;

// Layer k's mask and prefix stand at place k; the top layer has no prefix.
#[derive(Clone, Copy)]
pub struct Cursor {
    pub masks: [u64; store::LAYERS],
    pub prefix: [u32; store::TOP],
}

// What a call of the walk answers.
#[derive(Clone, Copy)]
pub enum Next {
    Member(u32),
    Paused,
    End,
    Refused(Refusal),
}

// The changed cursor, the words read by this call, and its answer.
#[derive(Clone, Copy)]
pub struct Step {
    pub cursor: Cursor,
    pub reads: u64,
    pub answer: Next,
}

// A cursor, and the words that were read on the way to it.
#[derive(Clone, Copy)]
pub struct Sunk {
    pub cursor: Cursor,
    pub reads: u64,
}

// The cursor above everything that stands below a top word.
pub fn above(top: u64) -> Cursor
    ensures { result ≡ start_at top_most top }
{
    let mut masks = [0; store::LAYERS];
    masks[store::TOP] = top;
    Cursor {
        masks,
        prefix: [0; store::TOP],
    }
}

impl Cursor {
    // Where the lowest bit of layer k's mask stands in its layer; the top layer has no prefix. Layers count modulo their number.
    #[tactic(auto, unfolding(crate::specs::Walk::place_at))]
    pub fn place(self, k: usize) -> usize
        ensures { let j = k % suc top_most in (result ≡ place_at top_most self j) × (0 < get_or self.masks j 0 → first_bit self j < 64) }
    {
        walk_masks::place(self.masks, self.prefix, k)
    }

    // The cursor once layer 0's lowest bit is handed out.
    #[tactic(auto, unfolding(crate::specs::Walk::handed, crate::specs::Walk::less))]
    pub fn hand(self) -> Cursor
        ensures { result ≡ handed self }
    {
        let masks = walk_masks::without(self.masks, 0);
        Cursor { masks, ..self }
    }

    // The lowest bit of the layer above layer j is taken, and the word below it, of layer j, is in hand. Layers count modulo the top one.
    pub fn handle_level(self, j: usize, word: u64) -> Cursor
        ensures { result ≡ handled top_most (j % top_most) word self }
    {
        let q = self.place(j % store::TOP + 1);
        Cursor {
            masks: walk_masks::taken(self.masks, j, word),
            prefix: walk_masks::under(self.prefix, j, q),
        }
    }

    // The word below the lowest bit of the layer above layer j is read.
    fn read(self, layer: &[u64], j: usize) -> Cursor
        requires { (j < top_most) × (0 < get_or self.masks (j + 1) 0) }
        ensures { Lowers (λ (k i : ℕ). get_or layer.now i 0) top_most j self result }
    {
        let q = self.place(j + 1);
        self.handle_level(j, store::get(layer, q))
    }

    // Whether a word has to be read before the next member.
    pub fn wants(self) -> bool
        ensures { result ≡ is_reading (kind top_most self) }
    {
        walk_masks::wants(self.masks)
    }

    // A step that leaves this cursor.
    fn step(self, reads: u64, answer: Next) -> Step
        ensures { result ≡ record { cursor = self; reads = reads; answer = answer } }
    {
        Step {
            cursor: self,
            reads,
            answer,
        }
    }

    // Whether a walk on a store of n ids, none being no store, takes this cursor.
    pub fn check(self, n: usize) -> Result<Ready, Refusal>
        ensures { Checked (refusal_of n (fits (top n) self)) self result }
    {
        walk_masks::check(n, self.prefix)?;
        Ok(Ready { cursor: self })
    }

    // Whether a walk of a store takes it.
    pub fn check_on(self, store: &[u64]) -> Result<Ready, Refusal>
        ensures { Checked (refusal_on store.now self) self result }
    {
        let n = store::capacity(store)?;
        self.check(n)
    }

    // What next answers where no word is read any more, after so many reads. An id has 32 bits.
    pub fn finish(self, reads: u64) -> Step
        ensures { Finishes top_most reads self result }
    {
        if self.masks[0] != 0 {
            let id = (self.place(0) & 0xffff_ffff) as u32;
            self.hand().step(reads, Next::Member(id))
        } else if self.wants() {
            self.step(reads, Next::Paused)
        } else {
            self.step(reads, Next::End)
        }
    }

    // A walk's start: the top word is read. What the given cursor holds does not matter.
    pub fn start(self, store: &[u64]) -> Step
        ensures { Settled step_paper (start_of store.now self) result tt }
    {
        match store::capacity(store) {
            Ok(_) => above(store::top_word(store)).step(1, Next::Paused),
            Err(no) => self.step(0, Next::Refused(no)),
        }
    }

    // The next member, at a budget of word reads.
    pub fn next(self, store: &[u64], budget: u64) -> Step
        ensures { Settled step_paper (next_of store.now self budget) result tt }
    {
        match self.check_on(store) {
            Ok(ready) => ready.next(&Layers::of(store), budget),
            Err(no) => self.step(0, Next::Refused(no)),
        }
    }
}
