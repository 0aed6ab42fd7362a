// Or, and, xor of two stores of equal capacity, in place: one body for the three, told which. No work is done under a clear summary bit of
// the side that decides.
#![tactic(auto)]

ghost use Rattle.std.specs.Prelude.{◌≡◌, ◌-◌, ◌<◌};
ghost use Rattle.ops_word.specs.Named.{code};
ghost use Rattle.ops_merge.specs.Calls.{Assigned};
ghost use Rattle.ops_merge.specs.Tree.{MergeAt, TaskDone, task_of};

use ops_word::Op;
use store::Refusal;
use util::Ones;

// A word above others: its place in its layer, what it is, and which of the words under it can change. The second store, the capacity and
// the operation are parameters beside it: from a struct they were read anew at each word, and a merge of stores with 1,000 members in
// 16,777,216 took 8 to 11 hundredths longer.
#[derive(Clone, Copy)]
struct Above {
    j: usize,
    w: u64,
    m: u64,
}

// The words of layer 0 under a word of layer 1. Answers that word after. The last group may be short.
#[tactic(auto, using(crate::proofs::Steps::places_few, store::proofs::Inside::start_inside, store::proofs::Ends::length_small))]
fn leaves(store: &mut [u64], other: &[u64], n: usize, a: Above, op: Op) -> u64
    requires { MergeAt store.old other.now n 0 a.j }
    ensures { TaskDone (task_of (code op) n 0 a.j a.w a.m) store.old other.now store.new result }
{
    let start = store::start(store.len(), n, 0) + a.j * 64;
    let end = start + 64;
    if end <= store.len() {
        return ops_group::group(&mut store[start..end], &other[start..end], a.w, a.m, op);
    }
    let last = start.min(store.len());
    ops_group::one_by_one(&mut store[last..], &other[last..], a.w, a.m, op)
}

// All that stands under a word of layer k, above 0. Answers that word after. The groups of layer 0 are met in the loop itself, and no call
// is made for each.
#[cycle(below_under)]
fn under(store: &mut [u64], other: &[u64], n: usize, k: usize, a: Above, op: Op) -> u64
    requires above { 0 < k }
    requires at { MergeAt store.old other.now n (k - 1) a.j }
    ensures { TaskDone (task_of (code op) n (k - 1) a.j a.w a.m) store.old other.now store.new result }
{
    if k == 1 {
        return leaves(store, other, n, a, op);
    }
    below(store, other, n, k - 1, a, op)
}

// The words of layer k, above 0, under a word above, and all that stands under them, as `under`.
#[cycle(below_under)]
#[tactic(auto, using(crate::proofs::Steps::places_few, store::proofs::Inside::start_to_end, store::proofs::Inside::end_inside))]
fn below(store: &mut [u64], other: &[u64], n: usize, k: usize, a: Above, op: Op) -> u64
    requires above { 0 < k }
    requires at { MergeAt store.old other.now n k a.j }
    ensures { TaskDone (task_of (code op) n k a.j a.w a.m) store.old other.now store.new result }
{
    let start = store::start(store.len(), n, k);
    let end = store::end(n, k);
    let layer = &other[start..end];
    let mut over = a.w;
    for t in Ones(a.m) {
        let j = a.j * 64 + t;
        let w = store::get(&store[start..end], j);
        let m = op.moving(w, layer, j);
        let z = under(store, other, n, k, Above { j, w, m }, op);
        store::put(&mut store[start..end], j, z);
        over = util::with_bit(over, t, z != 0);
    }
    over
}

// The three calls, told which: the tests, and the top word as the one word under a word above it.
pub fn assign(store: &mut [u64], other: &[u64], op: Op) -> Result<(), Refusal>
    ensures { Assigned (code op) store.old other.now result store.new }
{
    let n = store::same_capacity(store, other)?;
    below(
        store,
        other,
        n,
        store::top(n),
        Above { j: 0, w: 0, m: 1 },
        op,
    );
    Ok(())
}
