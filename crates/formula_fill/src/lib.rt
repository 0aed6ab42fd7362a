// Many members of a formula in one call: what that many calls of `formula_walk::next` do, with the tests made once.
#![tactic(auto)]

ghost use Rattle.util.specs.Outcome.{Settled};
ghost use Rattle.walk_fill.specs.Fill.{batch_paper};
ghost use Rattle.formula_codes.specs.Formula.{slices};
ghost use Rattle.formula_fill.specs.Calls.{formula_fill_of};

use formula_codes::Formula;
use formula_sink::FormulaWords;
use walk::Cursor;
use walk_fill::{Batch, Stop};

// As many members of a formula as `out` holds or the budget allows. A fill of a pair judges its cursor itself.
pub fn fill(c: Cursor, f: &Formula<'_>, budget: u64, out: &mut [u32]) -> Batch
    ensures { Settled batch_paper (formula_fill_of (slices f.now) f.now.codes.now c budget out.old) result out.new }
{
    let n = match formula_codes::check(f) {
        Ok(n) => n,
        Err(no) => return walk_fill::made(c, 0, 0, Stop::Refused(no)),
    };
    if formula_pair_codes::is_pair(f.codes) {
        return formula_pair_codes::fill(c, f, n, budget, out);
    }
    match c.check(n) {
        Ok(ready) => walk_fill::fill_over(ready, &FormulaWords::of(f), budget, out),
        Err(no) => walk_fill::made(c, 0, 0, Stop::Refused(no)),
    }
}
