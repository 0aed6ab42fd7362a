// The masks and prefixes of a cursor as arrays by value: what its steps ask of them and leave in them, which numbers prefixes may be, and
// what a walk refuses.
#![tactic(auto)]

ghost use Rattle.std.specs.Prelude.{◌&&◌, [], ◌∷◌, ◌≡◌, suc, ◌+◌, ◌*◌, ◌%◌, ◌<◌, eqb, ltb, get_or, set};
ghost use Rattle.std.specs.Int.Count.{count_trailing_zeros};
ghost use Rattle.store.specs.Answer.{judged};
ghost use Rattle.store.specs.Layout.{top, top_most};
ghost use Rattle.walk_masks.specs.Masks.{low_from, between, prefix_at, lowest_bit, bare};
ghost use Rattle.walk_masks.specs.Prefixes.{prefixes_fit, refusal_of};

use store::Refusal;

// The prefix of layer k is below 64 ^ (TOP + 1 - k).
const BOUND2: u64 = 64 * 64;

const BOUND1: u64 = 64 * BOUND2;

const BOUND0: u64 = 64 * BOUND1;

// Whether the lowest layer with a mask is one above layer 0.
#[tactic(auto, unfolding(crate::specs::Masks::low_from))]
pub fn wants(masks: [u64; store::LAYERS]) -> bool
    ensures { result ≡ between 0 (low_from masks 0 (suc top_most)) (suc top_most) }
{
    masks[0] == 0 && (masks[1] != 0 || masks[2] != 0 || masks[store::TOP] != 0)
}

// Where the lowest bit of a mask stands behind a prefix.
fn behind(p: u32, m: u64) -> usize
    ensures { (result ≡ p + count_trailing_zeros 64 m) × (0 < m → count_trailing_zeros 64 m < 64) }
{
    p as usize + u64::trailing_zeros(m) as usize
}

// Where the lowest bit of layer k's mask stands in its layer; the top layer has no prefix. Layers count modulo their number.
pub fn place(masks: [u64; store::LAYERS], prefix: [u32; store::TOP], k: usize) -> usize
    ensures { let j = k % suc top_most in
        (result ≡ prefix_at top_most prefix j + lowest_bit masks j) × (0 < get_or masks j 0 → lowest_bit masks j < 64) }
{
    let j = k % store::LAYERS;
    if j == store::TOP {
        return behind(0, masks[j]);
    }
    behind(prefix[j], masks[j])
}

// The masks without the lowest bit of layer k's. Layers count modulo their number.
pub fn without(masks: [u64; store::LAYERS], k: usize) -> [u64; store::LAYERS]
    ensures { result ≡ bare masks (k % suc top_most) }
{
    let at = k % store::LAYERS;
    let mut r = masks;
    r[at] = util::drop_lowest(masks[at]);
    r
}

// The same for the layer above layer j, with the word below that bit as layer j's mask. Layers count modulo the top one.
pub fn taken(masks: [u64; store::LAYERS], j: usize, word: u64) -> [u64; store::LAYERS]
    ensures { result ≡ set (bare masks (suc (j % top_most))) (j % top_most) word }
{
    let low = j % store::TOP;
    let mut r = without(masks, low + 1);
    r[low] = word;
    r
}

// The prefixes with layer j's below place q of the layer above it, q counted modulo 2 ^ 26. Layers count modulo the top one.
pub fn under(prefix: [u32; store::TOP], j: usize, q: usize) -> [u32; store::TOP]
    ensures { result ≡ set prefix (j % top_most) (q % 67108864 * 64) }
{
    let low = j % store::TOP;
    let mut r = prefix;
    r[low] = (q % 67108864 * 64) as u32;
    r
}

// Whether a number is a prefix below a bound.
fn is_prefix(p: u64, bound: u64) -> bool
    ensures { result ≡ (eqb (p % 64) 0 && ltb p bound) }
{
    p % 64 == 0 && p < bound
}

// Whether three numbers are the prefixes of a cursor, of the layers 0, 1 and 2.
#[tactic(auto, unfolding(crate::specs::Prefixes::prefixes_fit))]
pub fn are_prefixes(p0: u64, p1: u64, p2: u64) -> bool
    ensures { result ≡ prefixes_fit top_most (p0 ∷ p1 ∷ p2 ∷ []) top_most }
{
    is_prefix(p0, BOUND0) && is_prefix(p1, BOUND1) && is_prefix(p2, BOUND2)
}

// What a walk on a store of n ids, none being no store, is refused for, by its cursor's prefixes.
#[tactic(auto, using(crate::proofs::Prefixes::none_taken))]
pub fn check(n: usize, p: [u32; store::TOP]) -> Result<(), Refusal>
    ensures { result ≡ judged (refusal_of n (prefixes_fit (top n) p (top n))) }
{
    if n == 0 {
        return Err(Refusal::NoStore);
    }
    if are_prefixes(p[0] as u64, p[1] as u64, p[2] as u64) {
        Ok(())
    } else {
        Err(Refusal::Cursor)
    }
}
