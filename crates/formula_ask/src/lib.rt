// The calls over a formula: the Rust's virtual sets, with the codes and the stores lent beside each other.
#![tactic(auto)]

ghost use Rattle.std.specs.Prelude.{◌≡◌};
ghost use Rattle.util.specs.Outcome.{Settled};
ghost use Rattle.store.specs.Answer.{asked_paper, number_paper};
ghost use Rattle.formula_codes.specs.Formula.{slices};
ghost use Rattle.formula_ask.specs.Calls.{layer_word_of, formula_contains_of, formula_is_empty_of};

use formula_codes::Formula;
use store::Refusal;

// The word at an index of a layer of a formula; 0 past the layer's end. The top layer has one word, whatever the index. What the stores are
// refused for comes before a layer number above the top layer's, and the codes behind it.
#[tactic(auto, using(crate::proofs::Answers::word_answers))]
pub fn get_from_layer(f: &Formula<'_>, layer: usize, idx: usize) -> Result<u64, Refusal>
    ensures { Settled number_paper (layer_word_of (slices f.now) f.now.codes.now layer idx) result tt }
{
    let n = formula_codes::stores(f)?;
    let top = store::top(n);
    if layer > top {
        return Err(Refusal::Layer);
    }
    if !formula_codes::is_formula(f) {
        return Err(Refusal::Formula);
    }
    if layer == top {
        return Ok(formula_word::word(f, n, top, 0));
    }
    Ok(formula_word::word(f, n, layer, idx))
}

// Whether an id is a member of a formula; no at and past the capacity.
#[tactic(auto, using(crate::proofs::Answers::contains_answers))]
pub fn contains(f: &Formula<'_>, id: u32) -> Result<bool, Refusal>
    ensures { Settled asked_paper (formula_contains_of (slices f.now) f.now.codes.now id) result tt }
{
    let n = formula_codes::check(f)?;
    let i = id as usize;
    Ok(i < n && util::is_set(formula_word::word(f, n, 0, i / 64), i))
}

// Whether the top word of a formula is 0: then it has no member.
#[tactic(auto, using(crate::proofs::Answers::empty_answers))]
pub fn is_empty(f: &Formula<'_>) -> Result<bool, Refusal>
    ensures { Settled asked_paper (formula_is_empty_of (slices f.now) f.now.codes.now) result tt }
{
    let n = formula_codes::check(f)?;
    Ok(formula_word::word(f, n, store::top(n), 0) == 0)
}
