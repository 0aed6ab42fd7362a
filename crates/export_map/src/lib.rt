// The chunk map for C and Rust: slices arrive as pointer and length.
#![tactic(auto)]

ghost use Rattle.std.specs.Prelude.{◌≡◌};
ghost use Rattle.map_write.specs.Calls.{map_length_of, write_of};
ghost use Rattle.map_read.specs.Calls.{map_capacity_of, read_of};
ghost use Rattle.export_answer.specs.Abi.{answer_of};

use export_answer::Answer;

#[unsafe(no_mangle)]
pub extern "C" fn fen_map_length(store: &[u64]) -> Answer
    ensures { result ≡ answer_of (map_length_of store.now).numbers }
{
    Answer::from(map_write::length(store))
}

#[unsafe(no_mangle)]
pub extern "C" fn fen_map_write(store: &[u64], buf: &mut [u8]) -> Answer
    ensures value { result ≡ answer_of (write_of store.now buf.old).numbers }
    ensures buf_after { buf.new ≡ (write_of store.now buf.old).lent }
{
    Answer::from(map_write::write(store, buf))
}

#[unsafe(no_mangle)]
pub extern "C" fn fen_map_capacity(map: &[u8]) -> Answer
    ensures { result ≡ answer_of (map_capacity_of map.now).numbers }
{
    Answer::from(map_read::capacity(map))
}

#[unsafe(no_mangle)]
pub extern "C" fn fen_map_read(map: &[u8], store: &mut [u64]) -> Answer
    ensures value { result ≡ answer_of (read_of map.now store.old).numbers }
    ensures store_after { store.new ≡ (read_of map.now store.old).lent }
{
    Answer::from(map_read::read(map, store))
}
