// The directory over a store, for C and Rust: slices arrive as pointer and length.
#![tactic(auto)]

ghost use Rattle.std.specs.Prelude.{◌≡◌};
ghost use Rattle.directory.specs.Calls.{directory, directory_open_of, give_of, take_back_of};
ghost use Rattle.export_answer.specs.Abi.{answer_of};

use directory::Directory;
use export_answer::Answer;

#[unsafe(no_mangle)]
pub extern "C" fn fen_directory_open(store: &mut [u64], owners: &mut [u8], n: u32) -> Answer
    ensures value { result ≡ answer_of (directory_open_of (directory store.old owners.old) n).numbers }
    ensures store_after { store.new ≡ (directory_open_of (directory store.old owners.old) n).lent.store }
    ensures owners_after { owners.new ≡ (directory_open_of (directory store.old owners.old) n).lent.owners }
{
    Answer::from(Directory { store, owners }.open(n))
}

#[unsafe(no_mangle)]
pub extern "C" fn fen_directory_give(store: &mut [u64], owners: &mut [u8], item: u32) -> Answer
    ensures value { result ≡ answer_of (give_of (directory store.old owners.old) item).numbers }
    ensures store_after { store.new ≡ (give_of (directory store.old owners.old) item).lent.store }
    ensures owners_after { owners.new ≡ (give_of (directory store.old owners.old) item).lent.owners }
{
    Answer::from(Directory { store, owners }.give(item))
}

#[unsafe(no_mangle)]
pub extern "C" fn fen_directory_return(
    store: &mut [u64],
    owners: &mut [u8],
    item: u32,
    chunk: u32,
) -> Answer
    ensures value { result ≡ answer_of (take_back_of (directory store.old owners.old) item chunk).numbers }
    ensures store_after { store.new ≡ (take_back_of (directory store.old owners.old) item chunk).lent.store }
    ensures owners_after { owners.new ≡ (take_back_of (directory store.old owners.old) item chunk).lent.owners }
{
    Answer::from(Directory { store, owners }.take_back(item, chunk))
}
