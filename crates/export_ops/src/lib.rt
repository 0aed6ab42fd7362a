// Or, and, xor in place for C and Rust: slices arrive as pointer and length.
#![tactic(auto)]

ghost use Rattle.std.specs.Prelude.{◌≡◌};
ghost use Rattle.ops_merge.specs.Calls.{assign_of};
ghost use Rattle.export_answer.specs.Abi.{answer_of};
ghost use Rattle.export_ops.specs.Calls.{Leaves};

use export_answer::Answer;

#[unsafe(no_mangle)]
pub extern "C" fn fen_bitor_assign(store: &mut [u64], other: &[u64]) -> Answer
    ensures value { result ≡ answer_of (assign_of 17 store.old other.now).numbers }
    ensures leaves { Leaves 17 store.old other.now store.new }
{
    Answer::from(ops::bitor_assign(store, other))
}

#[unsafe(no_mangle)]
pub extern "C" fn fen_bitand_assign(store: &mut [u64], other: &[u64]) -> Answer
    ensures value { result ≡ answer_of (assign_of 16 store.old other.now).numbers }
    ensures leaves { Leaves 16 store.old other.now store.new }
{
    Answer::from(ops::bitand_assign(store, other))
}

#[unsafe(no_mangle)]
pub extern "C" fn fen_bitxor_assign(store: &mut [u64], other: &[u64]) -> Answer
    ensures value { result ≡ answer_of (assign_of 18 store.old other.now).numbers }
    ensures leaves { Leaves 18 store.old other.now store.new }
{
    Answer::from(ops::bitxor_assign(store, other))
}
