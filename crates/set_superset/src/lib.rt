// One set within another: the Rust's `BitSet::contains_set`, by a walk of the other store.
#![tactic(auto)]

ghost use Rattle.std.specs.Prelude.{true, ◌≡◌};
ghost use Rattle.util.specs.Outcome.{Settled};
ghost use Rattle.store.specs.Answer.{asked_paper};
ghost use Rattle.store.specs.Layout.{is_store};
ghost use Rattle.walk_batches.specs.Steps.{walked};
ghost use Rattle.set_superset.specs.Calls.{all_held, contains_set_of};

use store::Refusal;

// Whether a store has all ids of a batch as members.
fn all_held(store: &[u64], ids: &[u32]) -> bool
    requires { is_store store.now ≡ true }
    ensures { result ≡ all_held store.now ids.now }
{
    ids.iter()
        .all(|id| set_member::contains(store, *id) == Ok(true))
}

// Whether a store has every id that a walk of the other one hands out, 64 ids at a time: one after another, by `walk_batches::ids`, they
// took up to twice as long.
fn all_walked(store: &[u64], other: &[u64]) -> bool
    requires { (is_store store.now ≡ true) × (is_store other.now ≡ true) }
    ensures { result ≡ all_held store.now (walked other.now) }
{
    let mut ids = [0u32; 64];
    let mut c = walk_batches::started(other);
    loop {
        let b = walk_fill::fill(c, other, walk_batches::BUDGET, &mut ids);
        if !all_held(store, &ids[..b.count]) {
            return false;
        }
        if !walk_batches::goes_on(b.stop) {
            return true;
        }
        c = b.cursor;
    }
}

// Whether every id that a walk of the other store hands out is a member of this one.
pub fn contains_set(store: &[u64], other: &[u64]) -> Result<bool, Refusal>
    ensures { Settled asked_paper (contains_set_of store.now other.now) result tt }
{
    let n = store::capacity(store)?;
    let m = store::capacity(other)?;
    if n != m {
        return Err(Refusal::Capacities);
    }
    Ok(all_walked(store, other))
}
