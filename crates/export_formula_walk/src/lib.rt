// The walk over a formula for C and Rust, once it is started. It has an archive of its own, in which the word of a formula has one caller, so
// that the compiler places it inside the loop.
#![tactic(auto)]

ghost use Rattle.std.specs.Prelude.{◌≡◌};
ghost use Rattle.formula_codes.specs.Tree.{four};
ghost use Rattle.export_step.specs.Answers.{moved_of, cursor_after, stopped_of, fill_words_of, out_of};
ghost use Rattle.export_formula_walk.specs.Walk.{formula_stepped, formula_filled};

use export_step::StepAnswer;
use formula_codes::Formula;

#[unsafe(no_mangle)]
pub extern "C" fn fen_formula_next<'a>(
    codes: &'a [u8],
    s0: &'a [u64],
    s1: &'a [u64],
    s2: &'a [u64],
    s3: &'a [u64],
    cursor: &mut [u64; 10],
    budget: u64,
) -> StepAnswer
    ensures result_value { let ss = four s0.now s1.now s2.now s3.now in
        result ≡ moved_of (formula_stepped ss codes.now cursor.old budget) }
    ensures cursor_after { let ss = four s0.now s1.now s2.now s3.now in
        cursor.new ≡ cursor_after (formula_stepped ss codes.now cursor.old budget) cursor.old }
{
    let f = Formula {
        codes,
        stores: [s0, s1, s2, s3],
    };
    let s = formula_walk::next(export_cursor::cursor_in(cursor), &f, budget);
    export_step::told_step(cursor, s)
}

#[unsafe(no_mangle)]
pub extern "C" fn fen_formula_fill<'a>(
    codes: &'a [u8],
    s0: &'a [u64],
    s1: &'a [u64],
    s2: &'a [u64],
    s3: &'a [u64],
    cursor: &mut [u64; 10],
    budget: u64,
    out: &mut [u32],
) -> StepAnswer
    ensures result_value { let ss = four s0.now s1.now s2.now s3.now in
        result ≡ stopped_of (formula_filled ss codes.now cursor.old budget out.old) }
    ensures cursor_after { let ss = four s0.now s1.now s2.now s3.now in
        let cs = codes.now in
        cursor.new ≡ fill_words_of (formula_filled ss cs cursor.old budget out.old) cursor.old }
    ensures out_after { let ss = four s0.now s1.now s2.now s3.now in
        let cs = codes.now in
        out.new ≡ out_of (formula_filled ss cs cursor.old budget out.old) out.old }
{
    let f = Formula {
        codes,
        stores: [s0, s1, s2, s3],
    };
    let b = formula_fill::fill(export_cursor::cursor_in(cursor), &f, budget, out);
    export_step::told_batch(cursor, b)
}
