// The calls on ids and the free search, for C and Rust: slices arrive as pointer and length.
#![tactic(auto)]

ghost use Rattle.std.specs.Prelude.{◌≡◌};
ghost use Rattle.set_member.specs.Calls.{contains_of};
ghost use Rattle.set_edit.specs.Calls.{add_of, remove_of, add_list_of};
ghost use Rattle.set_free.specs.Calls.{first_free_of};
ghost use Rattle.export_answer.specs.Abi.{answer_of};

use export_answer::Answer;

#[unsafe(no_mangle)]
pub extern "C" fn fen_contains(store: &[u64], id: u32) -> Answer
    ensures { result ≡ answer_of (contains_of store.now id).numbers }
{
    Answer::from(set_member::contains(store, id))
}

#[unsafe(no_mangle)]
pub extern "C" fn fen_add(store: &mut [u64], id: u32) -> Answer
    ensures value { result ≡ answer_of (add_of store.old id).numbers }
    ensures store_after { store.new ≡ (add_of store.old id).lent }
{
    Answer::from(set_edit::add(store, id))
}

#[unsafe(no_mangle)]
pub extern "C" fn fen_remove(store: &mut [u64], id: u32) -> Answer
    ensures value { result ≡ answer_of (remove_of store.old id).numbers }
    ensures store_after { store.new ≡ (remove_of store.old id).lent }
{
    Answer::from(set_edit::remove(store, id))
}

#[unsafe(no_mangle)]
pub extern "C" fn fen_add_list(store: &mut [u64], ids: &[u32]) -> Answer
    ensures value { result ≡ answer_of (add_list_of store.old ids.now).numbers }
    ensures store_after { store.new ≡ (add_list_of store.old ids.now).lent }
{
    Answer::from(set_edit::add_list(store, ids))
}

#[unsafe(no_mangle)]
pub extern "C" fn fen_first_free(store: &[u64]) -> Answer
    ensures { result ≡ answer_of (first_free_of store.now).numbers }
{
    Answer::from(set_free::first_free(store))
}
