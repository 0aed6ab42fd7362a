// Many members of one store in one call, for callers that keep a cursor: what that many calls of `Cursor::next` do, with the tests made once.
#![tactic(auto)]

ghost use Rattle.std.specs.Prelude.{◌≡◌, length};
ghost use Rattle.util.specs.Outcome.{Settled};
ghost use Rattle.store.specs.Layout.{top_most};
ghost use Rattle.walk.specs.Walk.{kind};
ghost use Rattle.walk_fill.specs.Fill.{fill_from, batch_paper, filled, fill_of, rest_of};

use store::Refusal;
use walk::{Cursor, Layers, Ready, Words};

// Why a fill stopped: the places were full, or as next.
#[derive(Clone, Copy)]
pub enum Stop {
    Full,
    Paused,
    End,
    Refused(Refusal),
}

// The changed cursor, the words read by this call, the members handed out, and why no more were.
#[derive(Clone, Copy)]
pub struct Batch {
    pub cursor: Cursor,
    pub reads: u64,
    pub count: usize,
    pub stop: Stop,
}

// A batch that leaves a cursor.
pub fn made(c: Cursor, reads: u64, count: usize, stop: Stop) -> Batch
    ensures { result ≡ record { cursor = c; reads = reads; count = count; stop = stop } }
{
    Batch {
        cursor: c,
        reads,
        count,
        stop,
    }
}

// Why no member is at hand.
pub fn rest(c: Cursor, reads: u64, count: usize) -> Batch
    ensures { result ≡ record { cursor = c; reads = reads; count = count; stop = rest_of (kind top_most c) } }
{
    let stop = if c.wants() { Stop::Paused } else { Stop::End };
    made(c, reads, count, stop)
}

// As many members over any words as `out` holds or the budget allows. An id has 32 bits.
pub fn fill_over<W: Words>(from: Ready, words: &W, budget: u64, out: &mut [u32]) -> Batch
    ensures { let o = out.old in
        Settled batch_paper (filled (fill_from (W.word words.now) top_most (length o) budget from.cursor) o) result out.new }
{
    let mut c = from.cursor;
    let mut spent = 0;
    for count in 0..out.len() {
        let d = words.sink(c, spent, budget);
        c = d.cursor;
        spent = d.reads;
        if c.masks[0] == 0 {
            return rest(c, spent, count);
        }
        out[count] = (c.place(0) & 0xffff_ffff) as u32;
        c = c.hand();
    }
    made(c, spent, out.len(), Stop::Full)
}

// As many members of a store as `out` holds or the budget allows.
pub fn fill(c: Cursor, store: &[u64], budget: u64, out: &mut [u32]) -> Batch
    ensures { Settled batch_paper (fill_of store.now c budget out.old) result out.new }
{
    match c.check_on(store) {
        Ok(ready) => fill_over(ready, &Layers::of(store), budget, out),
        Err(no) => made(c, 0, 0, Stop::Refused(no)),
    }
}
