// The free search: the lowest id from 1 on that is not a member, by layer 0 alone.
#![tactic(auto)]

ghost use Rattle.std.specs.Prelude.{◌≡◌, ◌≤◌, cond, ltb, Some, None, fold, slice_get};
ghost use Rattle.std.specs.Int.Bits.{bit_and};
ghost use Rattle.std.specs.List.{prefix_len};
ghost use Rattle.util.specs.Outcome.{Settled};
ghost use Rattle.store.specs.Answer.{number_paper};
ghost use Rattle.store.specs.Layout.{max_cap};
ghost use Rattle.set_free.specs.Calls.{lowest_of, first_free_of};
ghost use Rattle.set_free.specs.Steps.{full, is_full, all_full, Small, free_in};

use store::Refusal;

// A word with every bit set.
const FULL: u64 = u64::MAX;

// How many words behind the first are looked at one by one, before eight are looked at a turn.
const NEAR: usize = 16;

// The id that the search begins with: chunk 0 is the container's header.
const SEARCH_START: usize = 1;

// The bits that eight words share: all of them if each word is full. None is left out, so that there is no branch for each.
fn shared(eight: &[u64; 8]) -> u64
    ensures { result ≡ fold bit_and full eight.now }
{
    eight.iter().copied().fold(FULL, |all, w| all & w)
}

// How many words in front are full.
fn ahead(words: &[u64]) -> usize
    ensures { result ≡ prefix_len is_full words.now }
{
    words.iter().take_while(|w| **w == FULL).count()
}

// How many eights in front are full, each as one.
fn eights_ahead(eights: &[[u64; 8]]) -> usize
    ensures { result ≡ prefix_len all_full eights.now }
{
    eights
        .iter()
        .take_while(|eight| shared(eight) == FULL)
        .count()
}

// How many words in front are full. They are mostly few, so some are looked at one by one, before eight are looked at a turn.
#[tactic(auto, using(crate::proofs::Words::few_ahead, crate::proofs::Words::few_eights))]
fn far_ahead(words: &[u64]) -> usize
    ensures { result ≡ prefix_len is_full words.now }
{
    let (near, rest) = words.split_at(words.len().min(NEAR));
    let i = ahead(near);
    if i < near.len() {
        return i;
    }
    let (eights, _) = rest.as_chunks::<8>();
    let far = 8 * eights_ahead(eights);
    i + far + ahead(&rest[far..])
}

// The id, where it is below n.
fn within(id: usize, n: usize) -> Option<u32>
    requires { n ≤ max_cap }
    ensures { result ≡ cond (ltb id n) (Some id) None }
{
    if id < n { Some(id as u32) } else { None }
}

// The lowest free id from `first` on and below n: in its own word, where the ids before it are left out, or in the next one that is not full.
fn search(layer: &[u64], n: usize, first: usize) -> Option<u32>
    requires { Small layer.now n first }
    ensures { result ≡ slice_get (free_in layer.now n first) 0 }
{
    let q = first / 64;
    let before = (1u64 << (first % 64)) - 1;
    let left = !layer[q] & !before;
    if left != 0 {
        return within(64 * q + left.trailing_zeros() as usize, n);
    }
    let p = q + 1 + far_ahead(&layer[q + 1..]);
    let w = !layer.get(p)?;
    within(64 * p + w.trailing_zeros() as usize, n)
}

// The lowest id from 1 on and below the capacity that is not a member, or the capacity where there is none; 0 of a slice that is no store.
#[tactic(auto, using(store::proofs::Inside::tested_start))]
pub fn lowest_free(store: &[u64]) -> u32
    ensures { result ≡ lowest_of store.now }
{
    match store::capacity(store) {
        Ok(n) => {
            let a = store::start(store.len(), n, 0);
            search(&store[a..], n, SEARCH_START).unwrap_or(n as u32)
        }
        Err(_) => 0,
    }
}

// The lowest id from 1 on and below the capacity that is not a member.
pub fn first_free(store: &[u64]) -> Result<u32, Refusal>
    ensures { Settled number_paper (first_free_of store.now) result tt }
{
    let n = store::capacity(store)?;
    let id = lowest_free(store);
    if (id as usize) < n {
        Ok(id)
    } else {
        Err(Refusal::Full)
    }
}
