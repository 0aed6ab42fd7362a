// The walk over a formula: what `walk` does over one store, with a formula's word in the place of a store's. A formula word counts one read.
#![tactic(auto)]

ghost use Rattle.std.specs.Prelude.{◌≡◌};
ghost use Rattle.util.specs.Outcome.{Settled};
ghost use Rattle.store.specs.Layout.{top_most};
ghost use Rattle.walk.specs.Calls.{step_paper};
ghost use Rattle.walk.specs.Checked.{Checked};
ghost use Rattle.walk.specs.Walk.{start_at};
ghost use Rattle.walk.specs.declared.Next.TheVariants.{Paused, Refused};
ghost use Rattle.formula_codes.specs.Formula.{slices};
ghost use Rattle.formula_walk.specs.Calls.{refusal_in, formula_start_of, formula_next_of};

use formula_codes::Formula;
use formula_sink::FormulaWords;
use store::Refusal;
use walk::{Cursor, Next, Ready, Step};

// Whether a walk over a formula takes a cursor: refusals 2, 5, 6 for the formula, then 7.
#[tactic(auto, using(crate::proofs::Answers::checks))]
pub fn check(c: Cursor, f: &Formula<'_>) -> Result<Ready, Refusal>
    ensures { Checked (refusal_in (slices f.now) f.now.codes.now c) c result }
{
    let n = formula_codes::check(f)?;
    c.check(n)
}

// A refused step hands its cursor back.
fn refused(c: Cursor, no: Refusal) -> Step
    ensures { result ≡ record { cursor = c; reads = 0; answer = Refused no } }
{
    Step {
        cursor: c,
        reads: 0,
        answer: Next::Refused(no),
    }
}

// A walk that stands below a top word, which was read.
fn begun(top: u64) -> Step
    ensures { result ≡ record { cursor = start_at top_most top; reads = 1; answer = Paused } }
{
    Step {
        cursor: walk::above(top),
        reads: 1,
        answer: Next::Paused,
    }
}

// A walk's start: the top word of the formula is read. What the given cursor holds does not matter.
#[tactic(auto, using(crate::proofs::Answers::starts))]
pub fn start(c: Cursor, f: &Formula<'_>) -> Step
    ensures { Settled step_paper (formula_start_of (slices f.now) f.now.codes.now c) result tt }
{
    match formula_codes::check(f) {
        Ok(n) => begun(formula_word::word(f, n, store::top(n), 0)),
        Err(no) => refused(c, no),
    }
}

// The next member of a formula, at a budget of word reads.
#[tactic(auto, using(crate::proofs::Answers::nexts))]
pub fn next(c: Cursor, f: &Formula<'_>, budget: u64) -> Step
    ensures { Settled step_paper (formula_next_of (slices f.now) f.now.codes.now c budget) result tt }
{
    match check(c, f) {
        Ok(ready) => ready.next(&FormulaWords::of(f), budget),
        Err(no) => refused(c, no),
    }
}
