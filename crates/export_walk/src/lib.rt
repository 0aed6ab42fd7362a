// The walk for C and Rust: slices arrive as pointer and length, a cursor as ten words.
#![tactic(auto)]

ghost use Rattle.std.specs.Prelude.{◌≡◌};
ghost use Rattle.export_step.specs.Answers.{moved_of, cursor_after, stopped_of, fill_words_of, out_of};
ghost use Rattle.export_walk.specs.Walk.{walk_started, walk_stepped, walk_filled};

use export_step::StepAnswer;

#[unsafe(no_mangle)]
pub extern "C" fn fen_start(store: &[u64], cursor: &mut [u64; 10]) -> StepAnswer
    ensures value { result ≡ moved_of (walk_started store.now cursor.old) }
    ensures cursor_after { cursor.new ≡ cursor_after (walk_started store.now cursor.old) cursor.old }
{
    let s = export_cursor::cursor_in(cursor).start(store);
    export_step::told_step(cursor, s)
}

// A step that may read: a function of its own, so that a member at hand saves no register. Its parameters stand in another order than those of
// `fen_next`: where they stand in the same, each test there jumps to this function, by six bytes in place of two.
#[inline(never)]
fn stepped(cursor: &mut [u64; 10], store: &[u64], budget: u64) -> StepAnswer
    ensures value { result ≡ moved_of (walk_stepped store.now cursor.old budget) }
    ensures cursor_after { let c = cursor.old in
        cursor.new ≡ cursor_after (walk_stepped store.now c budget) c }
{
    let s = export_cursor::cursor_in(cursor).next(store, budget);
    export_step::told_step(cursor, s)
}

#[unsafe(no_mangle)]
#[tactic(auto, using(crate::proofs::Quick::quick_told, crate::proofs::Quick::quick_left))]
pub extern "C" fn fen_next(store: &[u64], cursor: &mut [u64; 10], budget: u64) -> StepAnswer
    ensures value { result ≡ moved_of (walk_stepped store.now cursor.old budget) }
    ensures cursor_after { let c = cursor.old in
        cursor.new ≡ cursor_after (walk_stepped store.now c budget) c }
{
    if let Some(value) = export_quick::quick(store, cursor) {
        return StepAnswer { which: 1, value };
    }
    stepped(cursor, store, budget)
}

#[unsafe(no_mangle)]
pub extern "C" fn fen_fill(
    store: &[u64],
    cursor: &mut [u64; 10],
    budget: u64,
    out: &mut [u32],
) -> StepAnswer
    ensures value { result ≡ stopped_of (walk_filled store.now cursor.old budget out.old) }
    ensures cursor_after { let c = cursor.old in
        cursor.new ≡ fill_words_of (walk_filled store.now c budget out.old) c }
    ensures out_after { let o = out.old in
        out.new ≡ out_of (walk_filled store.now cursor.old budget o) o }
{
    let b = walk_fill::fill(export_cursor::cursor_in(cursor), store, budget, out);
    export_step::told_batch(cursor, b)
}
