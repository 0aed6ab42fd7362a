// Where a layer's word stands in a store, and which of its bits exist.
#![tactic(auto)]

ghost use Rattle.std.specs.Prelude.{cond, ◌≡◌, suc, ◌%◌, ◌≤◌};
ghost use Rattle.store.specs.Layout.{top_most};
ghost use Rattle.formula_codes.specs.Tree.{existing};
ghost use Rattle.formula_place.specs.Spots.{words_in, places_in, place_of};

// The words of layer k.
#[tactic(auto, using(crate::proofs::Spots::layers))]
fn words_in(n: usize, k: usize) -> usize
    requires { k ≤ top_most }
    ensures { result ≡ words_in n k }
{
    store::end(n, k) - store::end(n, k + 1)
}

// The places of a layer: ids, or the words of the layer below it. Layers count modulo their number.
#[tactic(auto, using(crate::proofs::Spots::layers))]
fn places(n: usize, layer: usize) -> usize
    ensures { result ≡ places_in n (layer % suc top_most) }
{
    match layer % store::LAYERS {
        0 => n,
        k => words_in(n, k - 1),
    }
}

// The bits of word i that exist in a layer of so many places.
#[tactic(auto, using(crate::proofs::Spots::exist))]
fn existing(places: usize, i: usize) -> u64
    ensures { result ≡ existing places i }
{
    let whole = places / 64;
    if i < whole {
        u64::MAX
    } else if whole < i {
        0
    } else {
        (1 << (places % 64)) - 1
    }
}

// Where word i of a layer stands in a store of capacity n; past the layer's end, where the store ends. Layers count modulo their number.
#[tactic(auto, using(crate::proofs::Spots::layers))]
pub fn spot(n: usize, layer: usize, i: usize) -> usize
    ensures { result ≡ place_of n (layer % suc top_most) i }
{
    let k = layer % store::LAYERS;
    if i < words_in(n, k) {
        store::end(n, k + 1) + i
    } else {
        store::end(n, 0)
    }
}

// The bits of word i of a layer that exist in a store of capacity n, or 0 where nothing looks at them. Layers count modulo their number.
pub fn cut(looks: bool, n: usize, layer: usize, i: usize) -> u64
    ensures { result ≡ cond looks (existing (places_in n (layer % suc top_most)) i) 0 }
{
    if looks {
        existing(places(n, layer), i)
    } else {
        0
    }
}
