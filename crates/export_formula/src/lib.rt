// What is asked of a formula, and the start of a walk over it, for C and Rust: codes and slices arrive as pointer and length, a cursor as ten
// words.
#![tactic(auto)]

ghost use Rattle.std.specs.Prelude.{◌≡◌};
ghost use Rattle.formula_codes.specs.Tree.{four};
ghost use Rattle.formula_ask.specs.Calls.{formula_contains_of, formula_is_empty_of, layer_word_of};
ghost use Rattle.export_answer.specs.Abi.{answer_of};
ghost use Rattle.export_step.specs.Answers.{moved_of, cursor_after};
ghost use Rattle.export_formula.specs.Walk.{formula_started};

use export_answer::Answer;
use export_step::StepAnswer;
use formula_codes::Formula;

#[unsafe(no_mangle)]
pub extern "C" fn fen_formula_start<'a>(
    codes: &'a [u8],
    s0: &'a [u64],
    s1: &'a [u64],
    s2: &'a [u64],
    s3: &'a [u64],
    cursor: &mut [u64; 10],
) -> StepAnswer
    ensures result_value { let ss = four s0.now s1.now s2.now s3.now in
        result ≡ moved_of (formula_started ss codes.now cursor.old) }
    ensures cursor_after { let ss = four s0.now s1.now s2.now s3.now in
        cursor.new ≡ cursor_after (formula_started ss codes.now cursor.old) cursor.old }
{
    let f = Formula {
        codes,
        stores: [s0, s1, s2, s3],
    };
    let s = formula_walk::start(export_cursor::cursor_in(cursor), &f);
    export_step::told_step(cursor, s)
}

#[unsafe(no_mangle)]
pub extern "C" fn fen_formula_contains<'a>(
    codes: &'a [u8],
    s0: &'a [u64],
    s1: &'a [u64],
    s2: &'a [u64],
    s3: &'a [u64],
    id: u32,
) -> Answer
    ensures { let ss = four s0.now s1.now s2.now s3.now in
        result ≡ answer_of (formula_contains_of ss codes.now id).numbers }
{
    let f = Formula {
        codes,
        stores: [s0, s1, s2, s3],
    };
    Answer::from(formula_ask::contains(&f, id))
}

#[unsafe(no_mangle)]
pub extern "C" fn fen_formula_is_empty<'a>(
    codes: &'a [u8],
    s0: &'a [u64],
    s1: &'a [u64],
    s2: &'a [u64],
    s3: &'a [u64],
) -> Answer
    ensures { let ss = four s0.now s1.now s2.now s3.now in
        result ≡ answer_of (formula_is_empty_of ss codes.now).numbers }
{
    let f = Formula {
        codes,
        stores: [s0, s1, s2, s3],
    };
    Answer::from(formula_ask::is_empty(&f))
}

#[unsafe(no_mangle)]
pub extern "C" fn fen_formula_get_from_layer<'a>(
    codes: &'a [u8],
    s0: &'a [u64],
    s1: &'a [u64],
    s2: &'a [u64],
    s3: &'a [u64],
    layer: usize,
    index: usize,
) -> Answer
    ensures { let ss = four s0.now s1.now s2.now s3.now in
        result ≡ answer_of (layer_word_of ss codes.now layer index).numbers }
{
    let f = Formula {
        codes,
        stores: [s0, s1, s2, s3],
    };
    Answer::from(formula_ask::get_from_layer(&f, layer, index))
}
