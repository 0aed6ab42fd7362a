// What every call on a store begins with and answers: the store test, where the layers stand, reading and writing a word, and the answers
// that calls share. This crate alone knows the layout.
#![tactic(auto)]

ghost use Rattle.std.specs.Prelude.{◌≡◌, ◌≤◌, slice_index, slice_set};
ghost use Rattle.store.specs.Layout.{top, max_cap, is_cap, store_len, words_for, cap, end_of, start_from, id_word_of, top_word};
ghost use Rattle.store.specs.Answer.{number, tested, tested_pair};

// Why a call refuses, by the numbers of the tables in the documents 01 and 02. What stays as it was is said by each call.
#[derive(Clone, Copy, PartialEq, Eq)]
pub enum Refusal {
    // opening: the capacity is 0 or too large
    Capacity = 1,
    // the slice is no store
    NoStore,
    // an id at or past the capacity
    Id,
    // a layer number above the top layer's
    Layer,
    // capacities differ
    Capacities,
    // the codes are no formula over the stores
    Formula,
    // the cursor's prefixes are none
    Cursor,
    // the buffer is shorter than the map
    Buffer,
    // the map's header is none
    Header,
    // an entry of the map
    Entry,
    // the map's member count is not that of its entries
    Members,
    // no id is free
    Full,
    // the owner bytes are not one for each id
    Owners,
    // an item's number
    Item,
    // the chunk is not the item's
    Owner,
}

impl From<Refusal> for u32 {
    ghost from_gives = { λ r n. n ≡ number r };

    // Its number in the tables.
    fn from(r: Refusal) -> u32 {
        r as u32
    }
}

// The words before the layers: word 0 holds the capacity.
pub const HEADER: usize = 1;

// The largest capacity.
pub const MOST: usize = 16777216;

// The top layer of the largest stores, and how many layers they have.
pub const TOP: usize = 3;

pub const LAYERS: usize = TOP + 1;

// Whether a store may have so many ids.
#[tactic(auto, using(crate::proofs::Ends::capacity_some, crate::proofs::Ends::capacity_zero))]
pub fn is_capacity(n: usize) -> bool
    ensures { result ≡ is_cap n }
{
    0 < n && n <= MOST
}

// The number of the top layer of a store of capacity n. It has one word, which stands behind the header.
pub fn top(n: usize) -> usize
    ensures { result ≡ top n }
{
    TOP
}

// The words that n bits need, at least one. No bits are taken as 2 ^ 64, so that there is no branch.
pub fn words_for(n: usize) -> usize
    ensures { result ≡ words_for n }
{
    std::num::wrapping_sub_u64(n as u64, 1) as usize / 64 + 1
}

// How many words a store of capacity n has. The layers' lengths are three divisions that do not wait for each other.
fn length(n: usize) -> usize
    requires { (1 ≤ n) × (n ≤ max_cap) }
    ensures { result ≡ store_len n }
{
    let m = n - 1;
    HEADER + 4 + m / 262144 + m / 4096 + m / 64
}

// Where layer k of a store of capacity n ends, and layer k - 1 starts: layer k stands from end(n, k + 1) to end(n, k). What is no
// capacity is taken as one, modulo 16,777,216, so that there is no branch but by k.
pub fn end(n: usize, k: usize) -> usize
    ensures { result ≡ end_of n k }
{
    let m = std::num::wrapping_sub_u64(n as u64, 1) as usize % MOST;
    let e2 = HEADER + 2 + m / 262144;
    let e1 = e2 + m / 4096 + 1;
    match k {
        0 => e1 + m / 64 + 1,
        1 => e1,
        2 => e2,
        3 => HEADER + 1,
        _ => HEADER,
    }
}

// Where layer k starts in a store of capacity n, which has so many words: layer 0 is the store's end, so that it needs no other layer.
pub fn start(len: usize, n: usize, k: usize) -> usize
    ensures { result ≡ start_from len n k }
{
    match k {
        0 => std::num::wrapping_sub_u64(len as u64, words_for(n) as u64) as usize,
        1 => end(n, 2),
        2 => end(n, 3),
        _ => end(n, 4),
    }
}

// Where the layer-0 word of an id stands in a store whose layer 0 starts there.
pub fn id_word(start: usize, id: u32) -> usize
    ensures { result ≡ id_word_of start id }
{
    std::num::wrapping_add_u64(start as u64, util::offset(id, util::SHIFT1) as u64) as usize
}

// The capacity that a slice names, in word 0; an empty slice names 0, which is none.
pub fn named(store: &[u64]) -> usize
    ensures { result ≡ cap store.now }
{
    get(store, 0) as usize
}

// A slice that is not empty names a capacity.
pub fn name(store: &mut [u64], n: usize)
    ensures { store.new ≡ slice_set store.old 0 n }
{
    put(store, 0, n as u64);
}

// The store test: the capacity that word 0 names, if the slice has its length.
pub fn capacity(store: &[u64]) -> Result<usize, Refusal>
    ensures { result ≡ tested store.now }
{
    let n = named(store);
    if is_capacity(n) && store.len() == length(n) {
        Ok(n)
    } else {
        Err(Refusal::NoStore)
    }
}

// The test of two stores of one capacity, which is answered: that both are stores comes first.
pub fn same_capacity(a: &[u64], b: &[u64]) -> Result<usize, Refusal>
    ensures { result ≡ tested_pair a.now b.now }
{
    let n = capacity(a)?;
    let m = capacity(b)?;
    if n != m {
        return Err(Refusal::Capacities);
    }
    Ok(n)
}

// The word of the top layer.
pub fn top_word(store: &[u64]) -> u64
    ensures { result ≡ top_word store.now }
{
    get(store, HEADER)
}

// Word i of a layer, lent as a part of its store; 0 past its end.
pub fn get(layer: &[u64], i: usize) -> u64
    ensures { result ≡ slice_index layer.now i }
{
    layer.get(i).copied().unwrap_or(0)
}

// The word-writing leaf: word i of a layer, lent as a part of its store, becomes w; nothing happens past its end.
pub fn put(layer: &mut [u64], i: usize, w: u64)
    ensures { layer.new ≡ slice_set layer.old i w }
{
    if i < layer.len() {
        layer[i] = w;
    }
}
