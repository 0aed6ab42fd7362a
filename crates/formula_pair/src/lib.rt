// Many members of two stores joined by one code: the commonest formula, walked over the layers of the two stores with no look at its codes.
#![tactic(auto)]

ghost use Rattle.std.specs.Prelude.{◌≡◌, ℕ, ◌+◌, ◌<◌, get_or};
ghost use Rattle.util.specs.Outcome.{Settled};
ghost use Rattle.store.specs.Layout.{top_most};
ghost use Rattle.walk.specs.Steps.{Lowers};
ghost use Rattle.walk_fill.specs.Fill.{batch_paper};
ghost use Rattle.formula_codes.specs.Tree.{joined};
ghost use Rattle.formula_pair.specs.Pair.{joined_words, pair_words, filled_words};
ghost use Rattle.formula_pair.specs.Steps.{Stepped};

use walk::{Cursor, Layers, Sunk, Words};
use walk_fill::{Batch, Stop};

// The layers of two stores, and the code that joins their words.
#[derive(Clone, Copy)]
struct Pair<'a> {
    code: u8,
    a: Layers<'a>,
    b: Layers<'a>,
}

impl Pair<'_> {
    // The words of two layers below the lowest bit of the layer above layer j are read and joined.
    fn read(&self, c: Cursor, a: &[u64], b: &[u64], j: usize) -> Cursor
        requires { (j < top_most) × (0 < get_or c.masks (j + 1) 0) }
        ensures { Lowers (λ (k i : ℕ). joined self.now.code k (get_or a.now i 0) (get_or b.now i 0)) top_most j c result }
    {
        let q = c.place(j + 1);
        let w = formula_codes::joined(self.code, j, store::get(a, q), store::get(b, q));
        c.handle_level(j, w)
    }

    // One word is read where one is wanted, and none where there is none to read. Each layer has a way of its own, so that the masks stay in
    // registers and none is asked for twice.
    fn down(&self, c: Cursor) -> Option<Cursor>
        ensures { Stepped (joined_words self.now) top_most c result }
    {
        let masks = c.masks;
        if masks[0] != 0 {
            None
        } else if masks[1] != 0 {
            Some(self.read(c, self.a.l0, self.b.l0, 0))
        } else if masks[2] != 0 {
            Some(self.read(c, self.a.l1, self.b.l1, 1))
        } else if masks[store::TOP] != 0 {
            Some(self.read(c, self.a.l2, self.b.l2, 2))
        } else {
            None
        }
    }
}

impl Words for Pair<'_> {
    ghost word = { joined_words };

    // A member at hand is met first, so that it costs one test.
    fn sink(&self, from: Cursor, spent: u64, budget: u64) -> Sunk {
        if from.masks[0] != 0 {
            return Sunk {
                cursor: from,
                reads: spent,
            };
        }
        let mut c = from;
        let mut reads = spent;
        while reads < budget {
            let Some(d) = self.down(c) else {
                break;
            };
            c = d;
            reads += 1;
        }
        Sunk { cursor: c, reads }
    }
}

// As many members of two stores of capacity n, joined, as `out` holds or the budget allows. A slice that is no store has no members. It is a
// function of its own, so that the fill over any formula takes no register from its loop.
#[inline(never)]
pub fn fill(
    c: Cursor,
    code: u8,
    n: usize,
    a: &[u64],
    b: &[u64],
    budget: u64,
    out: &mut [u32],
) -> Batch
    ensures { let lw = pair_words code a.now b.now in
        Settled batch_paper (filled_words lw n c budget out.old) result out.new }
{
    match c.check(n) {
        Ok(ready) => {
            let pair = Pair {
                code,
                a: Layers::of(a),
                b: Layers::of(b),
            };
            walk_fill::fill_over(ready, &pair, budget, out)
        }
        Err(no) => walk_fill::made(c, 0, 0, Stop::Refused(no)),
    }
}
