// What is asked of stores and of a word, for C and Rust: slices arrive as pointer and length.
#![tactic(auto)]

ghost use Rattle.std.specs.Prelude.{◌≡◌};
ghost use Rattle.average.specs.Average.{average_of};
ghost use Rattle.set_whole.specs.Calls.{equal_of};
ghost use Rattle.set_superset.specs.Calls.{contains_set_of};
ghost use Rattle.summary.specs.Calls.{is_sound_of};
ghost use Rattle.export_answer.specs.Abi.{answer_of, bit_of};

use export_answer::{Answer, Bit};

#[unsafe(no_mangle)]
pub extern "C" fn fen_equal(store: &[u64], other: &[u64]) -> Answer
    ensures { result ≡ answer_of (equal_of store.now other.now).numbers }
{
    Answer::from(set_whole::equal(store, other))
}

#[unsafe(no_mangle)]
pub extern "C" fn fen_contains_set(store: &[u64], other: &[u64]) -> Answer
    ensures { result ≡ answer_of (contains_set_of store.now other.now).numbers }
{
    Answer::from(set_superset::contains_set(store, other))
}

#[unsafe(no_mangle)]
pub extern "C" fn fen_is_sound(store: &[u64]) -> Answer
    ensures { result ≡ answer_of (is_sound_of store.now).numbers }
{
    Answer::from(summary::is_sound(store))
}

#[unsafe(no_mangle)]
pub extern "C" fn fen_average_ones(word: u64) -> Bit
    ensures { result ≡ bit_of (average_of word).numbers }
{
    Bit::from(average::average_ones(word))
}
