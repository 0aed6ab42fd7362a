// Changing the set over one lent store: the Rust's lib.rs, `BitSet`. Every call tests the store itself and refuses by number. A private step
// answers how many layers it wrote.
#![tactic(auto)]

ghost use Rattle.std.specs.Prelude.{true, false, List, ◌≡◌, ℕ, suc, ◌+◌, ◌/◌, ◌≤◌, ◌<◌, length, set};
ghost use Rattle.util.specs.Outcome.{Settled};
ghost use Rattle.store.specs.Answer.{asked_paper, did_paper};
ghost use Rattle.store.specs.Layout.{top, max_cap, StoreOf};
ghost use Rattle.set_member.specs.Place.{Placed, Inside};
ghost use Rattle.set_edit.specs.Calls.{add_of, remove_of, all_below, add_all, add_list_of};
ghost use Rattle.set_edit.specs.Edit.{reach};
ghost use Rattle.set_edit.specs.Steps.{Edited, Begun, Climbing, Ended, Moved};

use set_member::Place;
use store::Refusal;

// The word-writing leaf: word i of a layer, lent as a part of its store, becomes w.
fn set_word(layer: &mut [u64], i: usize, w: u64)
    requires { i < length layer.old }
    ensures { layer.new ≡ set layer.old i w }
{
    layer[i] = w;
}

// The layer-0 word of an id becomes w, where layer 0 starts at a.
fn set_id_word(store: &mut [u64], a: usize, id: u32, w: u64)
    requires { a + id / 64 < length store.old }
    ensures { store.new ≡ set store.old (a + id / 64) w }
{
    set_word(&mut store[a..], util::offset(id, util::SHIFT1), w);
}

// The bit over an id set, or cleared, in layer k; answers the word that it leaves.
#[tactic(auto, using(store::proofs::TopLayer::top_high, store::proofs::Inside::start_inside, crate::proofs::Steps::word_inside))]
fn edit(store: &mut [u64], n: usize, id: u32, k: usize, on: bool) -> u64
    requires { Placed store.old n id k }
    ensures { Edited on store.old n id k store.new result }
{
    let a = store::start(store.len(), n, k);
    let layer = &mut store[a..];
    let q = util::offset(id, 6 * (k + 1));
    let w = util::with_bit(layer[q], util::offset(id, 6 * k), on);
    set_word(layer, q, w);
    w
}

// The bit over an id set, or cleared, in the layers above 0, where layer 0 has it so; answers how many layers have it so now. It is set in
// every layer, and cleared as far as words become 0.
#[tactic(auto, using(store::proofs::TopLayer::top_high))]
fn above<const ON: bool>(store: &mut [u64], n: usize, id: u32) -> usize
    requires { (s : List ℕ) × Climbing ON s n id 1 store.old }
    ensures { (s : List ℕ) → Climbing ON s n id 1 store.old → Ended ON s n id (reach ON n s id) store.new result }
{
    let layers = store::top(n) + 1;
    for k in 1..layers {
        let w = edit(store, n, id, k, ON);
        if !ON && w != 0 {
            return k + 1;
        }
    }
    layers
}

// The crate's `add` and `add_slow`, and its `remove`: layer 0 is written where the bit is not so, and the layers above it where the word has
// no other id; answers how many are written.
fn moved<const ON: bool>(store: &mut [u64], place: Place, id: u32) -> usize
    requires { Inside store.old id place }
    ensures { Moved ON store.old place.n id store.new result }
{
    let old = place.word;
    let w = util::with_bit(old, id as usize, ON);
    if w == old {
        return 0;
    }
    set_id_word(store, place.start, id, w);
    let others = old & w;
    if others != 0 {
        return 1;
    }
    above::<ON>(store, place.n, id)
}

// Adds an id; answers whether it was held already.
pub fn add(store: &mut [u64], id: u32) -> Result<bool, Refusal>
    ensures { Settled asked_paper (add_of store.old id) result store.new }
{
    let place = set_member::locate(store, id)?;
    Ok(moved::<true>(store, place, id) == 0)
}

// Removes an id; answers whether it was held.
pub fn remove(store: &mut [u64], id: u32) -> Result<bool, Refusal>
    ensures { Settled asked_paper (remove_of store.old id) result store.new }
{
    match set_member::locate(store, id) {
        Ok(place) => Ok(moved::<false>(store, place, id) != 0),
        Err(Refusal::Id) => Ok(false),
        Err(no) => Err(no),
    }
}

// Whether every id of the list has room. All are looked at, with no branch and in 32 bits, so that many are compared at a time.
fn all_below(ids: &[u32], n: usize) -> bool
    requires { n ≤ max_cap }
    ensures { result ≡ all_below n ids.now }
{
    let limit = n as u32;
    ids.iter().copied().fold(true, |all, id| all & (id < limit))
}

// Adds every id of a list that has room for all.
#[tactic(auto, using(crate::proofs::Answers::turn_inside))]
fn add_all(store: &mut [u64], n: usize, ids: &[u32])
    requires { (StoreOf n store.old) × (all_below n ids.now ≡ true) }
    ensures { store.new ≡ add_all n store.old ids.now }
{
    let a = store::start(store.len(), n, 0);
    for &id in ids {
        let word = store[store::id_word(a, id)];
        moved::<true>(store, Place { n, start: a, word }, id);
    }
}

// Adds a list of ids: all, or none where one has no room.
pub fn add_list(store: &mut [u64], ids: &[u32]) -> Result<(), Refusal>
    ensures { Settled did_paper (add_list_of store.old ids.now) result store.new }
{
    let n = store::capacity(store)?;
    if !all_below(ids, n) {
        return Err(Refusal::Id);
    }
    add_all(store, n, ids);
    Ok(())
}
