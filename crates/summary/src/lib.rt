// Summaries rebuilt from layer 0, and the soundness check: layer by layer from layer 1 up, by one word over 64 words below it.
#![tactic(auto)]

ghost use Rattle.std.specs.Prelude.{◌++◌, ◌≡◌, drop, take};
ghost use Rattle.util.specs.Outcome.{Settled};
ghost use Rattle.util.specs.Word.{same};
ghost use Rattle.store.specs.Answer.{did_paper, asked_paper};
ghost use Rattle.store.specs.Build.{summary, build, layer0};
ghost use Rattle.store.specs.Layout.{StoreOf};
ghost use Rattle.summary.specs.Calls.{rebuild_of, sound_of, is_sound_of};
ghost use Rattle.summary.specs.Steps.{Two, Over, Paired};

use store::Refusal;

// The part holds a layer of `up` words and then the layer below it: the upper is written anew.
fn summarize(part: &mut [u64], up: usize)
    requires { Two up part.old }
    ensures { part.new ≡ summary (drop up part.old) ++ drop up part.old }
{
    let mut i = 0;
    while i < up {
        let w = summary_word::gather(part, up + 64 * i);
        part[i] = w;
        i += 1;
    }
}

// Two layers of a store that stand one behind the other: where the upper one starts, how many words it has, where the lower one ends.
#[derive(Clone, Copy)]
struct Pair {
    start: usize,
    up: usize,
    end: usize,
}

// Layer k of a store of so many words, and the layer over it.
fn two(len: usize, n: usize, k: usize) -> Pair
    requires { Over len n k }
    ensures { Paired n k result.start result.up result.end }
{
    let a = store::start(len, n, k + 1);
    let m = store::start(len, n, k);
    Pair {
        start: a,
        up: m - a,
        end: store::end(n, k),
    }
}

// Every summary layer is written anew.
fn raise(store: &mut [u64], n: usize)
    requires { StoreOf n store.old }
    ensures { store.new ≡ build n (layer0 n store.old) }
{
    let t = store::top(n);
    let mut k = 0usize;
    while k < t {
        let p = two(store.len(), n, k);
        let a = p.start;
        let e = p.end;
        summarize(&mut store[a..e], p.up);
        k += 1;
    }
}

// Replaces every summary layer by what layer 0 asks.
pub fn rebuild(store: &mut [u64]) -> Result<(), Refusal>
    ensures { Settled did_paper (rebuild_of store.old) result store.new }
{
    let n = store::capacity(store)?;
    raise(store, n);
    Ok(())
}

// The part holds a layer of `up` words and then the layer below it: whether the upper is as the lower asks.
fn is_summary(part: &[u64], up: usize) -> bool
    requires { Two up part.now }
    ensures { result ≡ same (take up part.now) (summary (drop up part.now)) }
{
    let mut i = 0;
    while i < up {
        if part[i] != summary_word::gather(part, up + 64 * i) {
            return false;
        }
        i += 1;
    }
    true
}

// Whether every summary layer is as layer 0 asks, and the last word of layer 0 has no bit at or past N.
fn sound(store: &[u64], n: usize) -> bool
    requires { StoreOf n store.now }
    ensures { result ≡ sound_of n store.now }
{
    let t = store::top(n);
    let mut k = 0usize;
    while k < t {
        let p = two(store.len(), n, k);
        let a = p.start;
        let e = p.end;
        if !is_summary(&store[a..e], p.up) {
            return false;
        }
        k += 1;
    }
    let last = store.len() - 1;
    store[last] >> ((n - 1) % 64) < 2
}

// Whether the store is sound; the check stops at the first fault.
pub fn is_sound(store: &[u64]) -> Result<bool, Refusal>
    ensures { Settled asked_paper (is_sound_of store.now) result tt }
{
    let n = store::capacity(store)?;
    Ok(sound(store, n))
}
