// The codes of a formula over at most four stores: which lists of codes are one, and what is refused.
#![tactic(auto)]

ghost use Rattle.std.specs.Prelude.{true, ◌≡◌, ◌≤◌, ◌%◌, map, length, Ok};
ghost use Rattle.store.specs.Answer.{judged, tested};
ghost use Rattle.formula_codes.specs.Check.{beside_of, stores_of, check_of};
ghost use Rattle.formula_codes.specs.Codes.{cuts_in, takes_in, is_formula};
ghost use Rattle.formula_codes.specs.Formula.{slices, sized};
ghost use Rattle.formula_codes.specs.Steps.{first_refusal, waiting, waiting_after};
ghost use Rattle.formula_codes.specs.Tree.{four, joined, nth};

use ops_word::Op;
use store::Refusal;

// A formula as it is lent: its codes, and the slices that the codes 0 to 3 name. An empty slice is a store that is not lent.
#[derive(Clone, Copy)]
pub struct Formula<'a> {
    pub codes: &'a [u8],
    pub stores: [&'a [u64]; 4],
}

impl<'a> Formula<'a> {
    // A formula over slices that the caller has for different times: they are lent for the shortest of these.
    pub fn of(
        codes: &'a [u8],
        s0: &'a [u64],
        s1: &'a [u64],
        s2: &'a [u64],
        s3: &'a [u64],
    ) -> Formula<'a>
        ensures codes { result.codes.now ≡ codes.now }
        ensures stores { slices result ≡ four s0.now s1.now s2.now s3.now }
    {
        Formula {
            codes,
            stores: [s0, s1, s2, s3],
        }
    }

    // The slice that a code names; codes count modulo 4.
    pub fn store(&self, code: u8) -> &'a [u64]
        ensures { result.now ≡ nth (slices self.now) (code % 4) }
    {
        self.stores[(code % 4) as usize]
    }
}

// What a code makes of two words of layer k: 16 and, 17 or, 18 xor, and any other as 18. Above layer 0, xor is or. A match stays a branch, so that
// no word waits for the code; in this order of the arms the compiled code asks for 16 first.
#[tactic(auto, using(crate::proofs::Pairs::pairs))]
pub fn joined(code: u8, k: usize, x: u64, y: u64) -> u64
    ensures { result ≡ joined code k x y }
{
    match code {
        17 => Op::Or.combine(x, y),
        16 => Op::And.combine(x, y),
        _ if k == 0 => Op::Xor.combine(x, y),
        _ => Op::Or.combine(x, y),
    }
}

// Whether some code is 19 or more: no other looks at which bits exist.
pub fn cuts(codes: &[u8]) -> bool
    ensures { result ≡ cuts_in codes.now }
{
    codes.iter().any(|code| 19 <= *code)
}

// Of two answers the refusal that comes first by its number, if there is one.
fn sooner(a: Result<(), Refusal>, b: Result<(), Refusal>) -> Result<(), Refusal>
    ensures { result ≡ first_refusal a b }
{
    match (a, b) {
        (Ok(()), _) => b,
        (_, Ok(())) => a,
        (Err(x), Err(y)) => if u32::from(x) < u32::from(y) { a } else { b },
    }
}

// What a slice is refused for beside a store of capacity n, where it is lent.
#[tactic(auto, using(crate::proofs::Answers::beside_answers))]
fn beside(n: usize, s: &[u64]) -> Result<(), Refusal>
    ensures { result ≡ judged (beside_of n s.now) }
{
    if s.is_empty() {
        return Ok(());
    }
    let m = store::capacity(s)?;
    if m == n {
        Ok(())
    } else {
        Err(Refusal::Capacities)
    }
}

// Whether a slice is empty, or names the capacity of a store and is as long as that, so that it needs no store test.
#[tactic(auto, using(crate::proofs::Answers::like_answers))]
fn like(n: usize, store: &[u64], s: &[u64]) -> bool
    requires { Ok n ≡ tested store.now }
    ensures { result ≡ true → 0 ≡ beside_of n s.now }
{
    s.is_empty() || s.len() == store.len() && store::named(s) == n
}

// The capacity of the stores, or what the slices are refused for, by 2 or 5.
#[tactic(auto, using(crate::proofs::Answers::stores_answers))]
pub fn stores(f: &Formula<'_>) -> Result<usize, Refusal>
    ensures { result ≡ sized (slices f.now) (stores_of (slices f.now)) }
{
    let [s0, s1, s2, s3] = f.stores;
    let n = store::capacity(s0)?;
    if like(n, s0, s1) && like(n, s0, s2) && like(n, s0, s3) {
        return Ok(n);
    }
    sooner(sooner(beside(n, s1), beside(n, s2)), beside(n, s3))?;
    Ok(n)
}

// How many values wait once a code has taken t of d and put one; none where there are too few, or where eight stay.
fn put(d: usize, t: usize) -> Option<usize>
    ensures { result ≡ waiting t d }
{
    if t <= d && d - t < 8 {
        Some(d - t + 1)
    } else {
        None
    }
}

// How many values wait after a code where d wait before it; none also for a code that may not stand there. 19 takes one value, 20 none.
#[tactic(auto, using(crate::proofs::Turns::taken))]
fn after(f: &Formula<'_>, code: u8, d: usize) -> Option<usize>
    requires { d ≤ 8 }
    ensures { result ≡ waiting (takes_in (map length (slices f.now)) code) d }
{
    match code {
        0..=3 if !f.store(code).is_empty() => put(d, 0),
        16..=18 => put(d, 2),
        19..=20 => put(d, (20 - code) as usize),
        _ => None,
    }
}

// How many values wait after all codes; none where a code finds too few, or would make more than eight wait.
#[tactic(auto, using(crate::proofs::Turns::counting))]
fn left(f: &Formula<'_>) -> Option<usize>
    ensures { result ≡ waiting_after (map length (slices f.now)) f.now.codes.now 0 }
{
    let mut d = 0;
    for code in f.codes {
        d = after(f, *code, d)?;
    }
    Some(d)
}

// Whether the codes are a formula over the four slices. Of no codes nothing is left.
#[tactic(auto, using(crate::proofs::Answers::formula_answers))]
pub fn is_formula(f: &Formula<'_>) -> bool
    ensures { result ≡ is_formula (slices f.now) f.now.codes.now }
{
    f.codes.len() <= 32 && left(f) == Some(1)
}

// The judge of every call over a formula: the capacity of its stores, or the refusal among 2, 5 and 6.
#[tactic(auto, using(crate::proofs::Answers::check_answers))]
pub fn check(f: &Formula<'_>) -> Result<usize, Refusal>
    ensures { result ≡ sized (slices f.now) (check_of (slices f.now) f.now.codes.now) }
{
    let n = stores(f)?;
    if is_formula(f) {
        Ok(n)
    } else {
        Err(Refusal::Formula)
    }
}
