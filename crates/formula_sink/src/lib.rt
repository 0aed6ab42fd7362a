// The descent of a walk over a formula: words are read until none is wanted or the budget is spent. A formula word counts one read.
#![tactic(auto)]

ghost use Rattle.std.specs.Prelude.{◌≡◌, ◌+◌, ◌-◌, ◌<◌, get_or};
ghost use Rattle.store.specs.Layout.{top_most, cap};
ghost use Rattle.walk.specs.Steps.{Lowers, Sinks};
ghost use Rattle.walk.specs.Walk.{low_layer, handled};
ghost use Rattle.formula_codes.specs.Codes.{cuts_in};
ghost use Rattle.formula_codes.specs.Formula.{slices};
ghost use Rattle.formula_codes.specs.Tree.{nth};
ghost use Rattle.formula_sink.specs.Steps.{words_of, Spotted, Wanted};

use formula_codes::Formula;
use walk::{Cursor, Sunk, Words};

// The words of a formula over stores of capacity n. Whether some code looks at which bits exist is asked once.
#[derive(Clone, Copy)]
pub struct FormulaWords<'a> {
    pub formula: Formula<'a>,
    pub n: usize,
    pub cuts: bool,
    pub ghost looks: { cuts ≡ cuts_in formula.codes.now },
}

// The word that has to be read: its layer, its index, and where it stands in a store.
#[derive(Clone, Copy)]
struct Spot {
    layer: usize,
    index: usize,
    at: usize,
}

// The word is taken into the cursor. A literal layer number keeps the cursor in registers.
fn lower(c: Cursor, j: usize, w: u64) -> Cursor
    requires { j < top_most }
    ensures { result ≡ handled top_most j w c }
{
    match j {
        0 => c.handle_level(0, w),
        1 => c.handle_level(1, w),
        _ => c.handle_level(2, w),
    }
}

impl<'a> FormulaWords<'a> {
    // Those over the capacity that store 0 names.
    pub fn of(f: &Formula<'a>) -> FormulaWords<'a>
        ensures { (result.formula ≡ f.now) × (result.n ≡ cap (nth (slices f.now) 0)) }
    {
        FormulaWords {
            formula: *f,
            n: store::named(f.store(0)),
            cuts: formula_codes::cuts(f.codes),
        }
    }

    // The word of layer k that has to be read.
    fn below(&self, c: Cursor, k: usize) -> Spot
        requires { (k < top_most) × (low_layer top_most c ≡ k + 1) × (0 < get_or c.masks (k + 1) 0) }
        ensures { Spotted self.now.n c result }
    {
        let q = c.place(k + 1);
        Spot {
            layer: k,
            index: q,
            at: formula_place::spot(self.n, k, q),
        }
    }

    // The word that has to be read, if there is one. No mask is asked for twice.
    #[tactic(auto, using(crate::proofs::Lowest::lowest))]
    fn wanted(&self, c: Cursor) -> Option<Spot>
        ensures { Wanted self.now.n c result }
    {
        let masks = c.masks;
        if masks[0] != 0 {
            None
        } else if masks[1] != 0 {
            Some(self.below(c, 0))
        } else if masks[2] != 0 {
            Some(self.below(c, 1))
        } else if masks[store::TOP] != 0 {
            Some(self.below(c, 2))
        } else {
            None
        }
    }

    // One word is read.
    fn read(&self, c: Cursor, p: Spot) -> Cursor
        requires { Spotted self.now.n c p }
        ensures { Lowers (words_of self.now.formula self.now.n) top_most (low_layer top_most c - 1) c result }
    {
        let x = formula_place::cut(self.cuts, self.n, p.layer, p.index);
        let w = formula_word::word_at(&self.formula, p.layer, x, p.at);
        lower(c, p.layer, w)
    }

    // Words are read where no member is at hand: by a function of its own, so that a member at hand costs no call.
    #[inline(never)]
    fn descend(&self, from: Cursor, spent: u64, budget: u64) -> Sunk
        ensures { Sinks (words_of self.now.formula self.now.n) top_most budget spent from result }
    {
        let mut c = from;
        let mut reads = spent;
        while reads < budget {
            let Some(p) = self.wanted(c) else {
                break;
            };
            c = self.read(c, p);
            reads += 1;
        }
        Sunk { cursor: c, reads }
    }
}

impl Words for FormulaWords<'_> {
    ghost word = { λ w. words_of w.formula w.n };

    // A member at hand is met here, so that it costs no call.
    #[inline(always)]
    fn sink(&self, from: Cursor, spent: u64, budget: u64) -> Sunk {
        if from.masks[0] != 0 {
            Sunk {
                cursor: from,
                reads: spent,
            }
        } else {
            self.descend(from, spent, budget)
        }
    }
}
