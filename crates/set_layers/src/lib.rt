// Reading the layers of a store: the Rust's `get_from_layer` and its three layer slices.
#![tactic(auto)]

ghost use Rattle.std.specs.Prelude.{[], ◌∷◌, ◌≡◌, ◌≤◌, ◌<◌};
ghost use Rattle.util.specs.Outcome.{Settled};
ghost use Rattle.store.specs.Answer.{number_paper};
ghost use Rattle.store.specs.Layout.{top, StoreOf};
ghost use Rattle.store.specs.Word.{anc};
ghost use Rattle.set_layers.specs.Calls.{word_of, OwnPart};

use store::Refusal;

// The bits of a word.
pub const BITS_PER_USIZE: usize = 64;

// The ids under a bit of layer 1.
pub const LAYER1_GRANULARITY: usize = BITS_PER_USIZE;

// The ids under a bit of layer 2.
pub const LAYER2_GRANULARITY: usize = LAYER1_GRANULARITY * BITS_PER_USIZE;

// The places over an id in the layers 1 and 2, as a caller of the slices finds them: what the constants are is said here.
fn places_over(id: u32) -> [usize; 2]
    ensures { result ≡ anc id 1 ∷ anc id 2 ∷ [] }
{
    [
        id as usize / LAYER1_GRANULARITY,
        id as usize / LAYER2_GRANULARITY,
    ]
}

// Layer k of a store of capacity n, as the caller's own part of it.
#[tactic(auto, using(store::proofs::Inside::start_to_end, store::proofs::Inside::end_inside))]
fn part(store: &[u64], n: usize, k: usize) -> &[u64]
    requires { (StoreOf n store.now) × (k ≤ top n) }
    ensures { OwnPart store.entry result k }
{
    let a = store::start(store.len(), n, k);
    let e = store::end(n, k);
    &store[a..e]
}

// Layer k, one of the three that are handed back, as the caller's own part of the store; empty where the slice is no store.
fn handed(store: &[u64], k: usize) -> &[u64]
    requires { k < 3 }
    ensures { OwnPart store.entry result k }
{
    match store::capacity(store) {
        Ok(n) => part(store, n, k),
        Err(_) => &store[..0],
    }
}

// The word at an index of a layer; 0 past the layer's end. The top layer has one word, whatever the index.
pub fn get_from_layer(store: &[u64], layer: usize, idx: usize) -> Result<u64, Refusal>
    ensures { Settled number_paper (word_of store.now layer idx) result tt }
{
    let n = store::capacity(store)?;
    let top = store::top(n);
    if layer > top {
        return Err(Refusal::Layer);
    }
    if layer == top {
        return Ok(store::top_word(store));
    }
    Ok(store::get(part(store, n, layer), idx))
}

// The bottom layer: each bit is an id.
pub fn layer0_as_slice(store: &[u64]) -> &[u64]
    ensures { OwnPart store.entry result 0 }
{
    handed(store, 0)
}

// The second layer: each bit stands for a word of layer 0.
pub fn layer1_as_slice(store: &[u64]) -> &[u64]
    ensures { OwnPart store.entry result 1 }
{
    handed(store, 1)
}

// The third layer: each bit stands for a word of layer 1.
pub fn layer2_as_slice(store: &[u64]) -> &[u64]
    ensures { OwnPart store.entry result 2 }
{
    handed(store, 2)
}
