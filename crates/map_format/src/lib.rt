// What the bytes of a chunk map are: little-endian numbers; a word without the bits past the capacity; how long the map is.
#![tactic(auto)]

ghost use Rattle.std.specs.Prelude.{◌≡◌, ◌+◌, ◌*◌, ◌^◌, ◌%◌, ◌==◌, leb, not, length, get_or, count_by};
ghost use Rattle.store.specs.Build.{room0};
ghost use Rattle.map_format.specs.Steps.{with_last, used_at};

use std::cmp::Ordering;

// A word of number q without its bits at or past n.
pub fn cut(w: u64, n: usize, q: usize) -> u64
    ensures { result ≡ w % 2 ^ room0 n q }
{
    match q.cmp(&(n / 64)) {
        Ordering::Less => w,
        Ordering::Equal => w % (1u64 << (n % 64)),
        Ordering::Greater => 0,
    }
}

// Word q of a layer 0, its bits at or past n taken as absent; 0 past its end.
pub fn kept_word(layer: &[u64], n: usize, q: usize) -> u64
    ensures { result ≡ get_or layer.now q 0 % 2 ^ room0 n q }
{
    cut(store::get(layer, q), n, q)
}

// How many of the words are not zero.
fn count_used(words: &[u64]) -> usize
    ensures { result ≡ count_by (λ w. not (w == 0)) words.now }
{
    words.iter().map(|w| usize::from(*w != 0)).sum()
}

// The length of the map: a header and an entry for each word that is not zero, `last` standing for the last.
pub fn map_length(layer: &[u64], last: u64) -> usize
    ensures { result ≡ 16 + 12 * length (used_at (with_last layer.now last)) }
{
    match layer.split_last() {
        Some((_, front)) => 16 + 12 * (count_used(front) + usize::from(last != 0)),
        None => 16,
    }
}

// Whether so many bytes have room for the map. The words need not be counted where there is room for all.
pub fn map_fits(layer: &[u64], last: u64, bytes: usize) -> bool
    ensures { result ≡ leb (16 + 12 * length (used_at (with_last layer.now last))) bytes }
{
    16 + 12 * layer.len() <= bytes || map_length(layer, last) <= bytes
}
