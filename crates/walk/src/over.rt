// The walk over any words: how words are read is a trait, and the three layers of one store are its first instance.

ghost use Rattle.std.specs.Prelude.{true, ◌≡◌, ℕ, ◌-◌};
ghost use Rattle.store.specs.Layout.{top_most};
ghost use Rattle.walk.specs.Calls.{Fine};
ghost use Rattle.walk.specs.Steps.{is_reading, Lowers, Sinks};
ghost use Rattle.walk.specs.Walk.{low_layer, kind, next};
ghost use Rattle.walk.specs.Layers.{layer_words, LayersOf};

use super::{Cursor, Step, Sunk};

// How the words of a walk are read, of the layers below the top.
pub trait Words {
    // Word i of layer k.
    ghost word: { Self → ℕ → ℕ → ℕ };

    // After so many reads, words are read until none is wanted or the budget is spent.
    fn sink(&self, from: Cursor, spent: u64, budget: u64) -> Sunk
        ensures { Sinks (word self.now) top_most budget spent from result };
}

// A cursor that no walk refuses.
#[derive(Clone, Copy)]
pub struct Ready {
    pub cursor: Cursor,
    pub ghost fine: { Fine top_most cursor.prefix },
}

impl Ready {
    // The next member over any words, at a budget of word reads.
    #[tactic(auto, using(crate::proofs::Turns::sink_finish))]
    pub fn next<W: Words>(self, words: &W, budget: u64) -> Step
        ensures { result ≡ next (W.word words.now) top_most budget self.cursor }
    {
        let d = words.sink(self.cursor, 0, budget);
        d.cursor.finish(d.reads)
    }
}

// The layers 0, 1 and 2 of a store, as the caller's own parts of it.
#[derive(Clone, Copy)]
pub struct Layers<'a> {
    pub l0: &'a [u64],
    pub l1: &'a [u64],
    pub l2: &'a [u64],
}

impl<'a> Layers<'a> {
    // Those of a store; empty where the slice is none.
    pub fn of(store: &'a [u64]) -> Layers<'a>
        ensures { LayersOf store.entry result }
    {
        Layers {
            l0: set_layers::layer0_as_slice(store),
            l1: set_layers::layer1_as_slice(store),
            l2: set_layers::layer2_as_slice(store),
        }
    }

    // One word is read. Each layer has a way of its own, so that the masks stay in registers.
    fn down(&self, c: Cursor) -> Cursor
        requires { is_reading (kind top_most c) ≡ true }
        ensures { Lowers (layer_words self.now) top_most (low_layer top_most c - 1) c result }
    {
        if c.masks[1] != 0 {
            c.read(self.l0, 0)
        } else if c.masks[2] != 0 {
            c.read(self.l1, 1)
        } else {
            c.read(self.l2, 2)
        }
    }
}

impl Words for Layers<'_> {
    ghost word = { layer_words };

    fn sink(&self, from: Cursor, spent: u64, budget: u64) -> Sunk {
        let mut c = from;
        let mut reads = spent;
        while c.wants() && reads < budget {
            c = self.down(c);
            reads += 1;
        }
        Sunk { cursor: c, reads }
    }
}
