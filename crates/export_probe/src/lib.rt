// What the comparison asks of the port and the header for C does not have (oracle/probe.h): the places of an id's bits, and the reader's
// first step.
#![tactic(auto)]

ghost use Rattle.std.specs.Prelude.{[], ◌∷◌, ◌≡◌};
ghost use Rattle.util.specs.Row.{row_of, offset_of, mask_of};
ghost use Rattle.export_step.specs.Answers.{moved_of};
ghost use Rattle.export_probe.specs.First.{first_in, reads_left};

use export_step::StepAnswer;
use walk::Next;

#[unsafe(no_mangle)]
pub extern "C" fn fen_probe_row(id: u32, shift: usize) -> usize
    ensures { result ≡ row_of id shift }
{
    util::row(id, shift)
}

#[unsafe(no_mangle)]
pub extern "C" fn fen_probe_offset(id: u32, shift: usize) -> usize
    ensures { result ≡ offset_of id shift }
{
    util::offset(id, shift)
}

#[unsafe(no_mangle)]
pub extern "C" fn fen_probe_mask(id: u32, shift: usize) -> u64
    ensures { result ≡ mask_of id shift }
{
    util::mask(id, shift)
}

#[unsafe(no_mangle)]
pub extern "C" fn fen_probe_offsets(id: u32, words: &mut [u64; 3])
    ensures { words.new ≡ (offset_of id 6 ∷ offset_of id 12 ∷ offset_of id 18 ∷ []) }
{
    let p = util::offsets(id);
    *words = [p.layer0 as u64, p.layer1 as u64, p.layer2 as u64];
}

#[unsafe(no_mangle)]
pub extern "C" fn fen_probe_first(store: &[u64], budget: u64, reads: &mut u64) -> StepAnswer
    ensures value { result ≡ moved_of (first_in store.now budget) }
    ensures reads_after { reads.new ≡ reads_left (first_in store.now budget) reads.old }
{
    let t = walk_reader::first(store, budget);
    if !matches!(t.answer, Next::Refused(_)) {
        *reads = t.reads;
    }
    t.answer.into()
}
