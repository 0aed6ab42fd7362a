// The calls on a whole store, for C and Rust: slices arrive as pointer and length.
#![tactic(auto)]

ghost use Rattle.std.specs.Prelude.{◌≡◌};
ghost use Rattle.set_whole.specs.Calls.{open_of, clear_of, is_empty_of};
ghost use Rattle.summary.specs.Calls.{rebuild_of};
ghost use Rattle.export_answer.specs.Abi.{answer_of};

use export_answer::Answer;

#[unsafe(no_mangle)]
pub extern "C" fn fen_open(store: &mut [u64], n: u32) -> Answer
    ensures value { result ≡ answer_of (open_of store.old n).numbers }
    ensures store_after { store.new ≡ (open_of store.old n).lent }
{
    Answer::from(set_whole::open(store, n))
}

#[unsafe(no_mangle)]
pub extern "C" fn fen_clear(store: &mut [u64]) -> Answer
    ensures value { result ≡ answer_of (clear_of store.old).numbers }
    ensures store_after { store.new ≡ (clear_of store.old).lent }
{
    Answer::from(set_whole::clear(store))
}

#[unsafe(no_mangle)]
pub extern "C" fn fen_is_empty(store: &[u64]) -> Answer
    ensures { result ≡ answer_of (is_empty_of store.now).numbers }
{
    Answer::from(set_whole::is_empty(store))
}

#[unsafe(no_mangle)]
pub extern "C" fn fen_rebuild(store: &mut [u64]) -> Answer
    ensures value { result ≡ answer_of (rebuild_of store.old).numbers }
    ensures store_after { store.new ≡ (rebuild_of store.old).lent }
{
    Answer::from(summary::rebuild(store))
}
