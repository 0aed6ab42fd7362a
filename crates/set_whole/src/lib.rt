// Calls on a whole store: the Rust's `BitSet::with_capacity`, `clear`, `is_empty` and `==`.
#![tactic(auto)]

ghost use Rattle.std.specs.Prelude.{◌≡◌, length, replicate, set};
ghost use Rattle.util.specs.Outcome.{Settled};
ghost use Rattle.store.specs.Answer.{asked_paper, did_paper, judged};
ghost use Rattle.set_whole.specs.Calls.{open_refusal, open_of, clear_of, is_empty_of, equal_of};

use store::Refusal;

// The empty store of a capacity, over all that is lent.
fn empty(store: &mut [u64], n: usize)
    ensures { store.new ≡ set (replicate (length store.old) 0) 0 n }
{
    store.fill(0);
    store::name(store, n);
}

// What stands in the way of opening a slice of so many words for capacity n.
pub fn can_open(n: usize, len: usize) -> Result<(), Refusal>
    ensures { result ≡ judged (open_refusal n len) }
{
    if !store::is_capacity(n) {
        Err(Refusal::Capacity)
    } else if len != store::end(n, 0) {
        Err(Refusal::NoStore)
    } else {
        Ok(())
    }
}

// Makes the slice the empty store of capacity n.
pub fn open(store: &mut [u64], n: u32) -> Result<(), Refusal>
    ensures { Settled did_paper (open_of store.old n) result store.new }
{
    let cap = n as usize;
    can_open(cap, store.len())?;
    empty(store, cap);
    Ok(())
}

// Removes every member.
pub fn clear(store: &mut [u64]) -> Result<(), Refusal>
    ensures { Settled did_paper (clear_of store.old) result store.new }
{
    let n = store::capacity(store)?;
    empty(store, n);
    Ok(())
}

// Whether the top layer's word is 0.
pub fn is_empty(store: &[u64]) -> Result<bool, Refusal>
    ensures { Settled asked_paper (is_empty_of store.now) result tt }
{
    store::capacity(store)?;
    Ok(store::top_word(store) == 0)
}

// Whether two stores of one capacity hold the same words.
pub fn equal(a: &[u64], b: &[u64]) -> Result<bool, Refusal>
    ensures { Settled asked_paper (equal_of a.now b.now) result tt }
{
    let n = store::capacity(a)?;
    let m = store::capacity(b)?;
    if n != m {
        return Err(Refusal::Capacities);
    }
    Ok(a == b)
}
