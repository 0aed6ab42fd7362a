// The commonest formula: two stores and what joins them. Its codes name two of the four lent slices.
#![tactic(auto)]

ghost use Rattle.std.specs.Prelude.{◌≡◌, get_or};
ghost use Rattle.util.specs.Outcome.{Settled};
ghost use Rattle.walk_fill.specs.Fill.{batch_paper};
ghost use Rattle.formula_codes.specs.Formula.{slices};
ghost use Rattle.formula_pair.specs.Pair.{filled_words};
ghost use Rattle.formula_pair_codes.specs.Pairs.{is_pair, named_words};

use formula_codes::Formula;
use walk::Cursor;
use walk_fill::Batch;

// Whether the codes are two stores and what joins them.
#[tactic(auto, unfolding(crate::specs::Pairs::is_pair))]
pub fn is_pair(codes: &[u8]) -> bool
    ensures { result ≡ is_pair codes.now }
{
    matches!(codes, [0..=3, 0..=3, 16..=18])
}

// The code at a place, 0 past the last one.
fn code_at(codes: &[u8], i: usize) -> u8
    ensures { result ≡ get_or codes.now i 0 }
{
    codes.get(i).copied().unwrap_or(0)
}

// As many members of the two stores of capacity n that the first two codes name, joined by the third, as `out` holds or the budget allows.
// Stores count modulo 4.
pub fn fill(c: Cursor, f: &Formula<'_>, n: usize, budget: u64, out: &mut [u32]) -> Batch
    ensures { let lw = named_words (slices f.now) f.now.codes.now in
        Settled batch_paper (filled_words lw n c budget out.old) result out.new }
{
    let a = f.store(code_at(f.codes, 0));
    let b = f.store(code_at(f.codes, 1));
    formula_pair::fill(c, code_at(f.codes, 2), n, a, b, budget, out)
}
