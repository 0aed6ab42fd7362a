// The layer word of a formula, its codes one after another on a stack: the Rust's `BitSetAnd`, `BitSetOr`, `BitSetXor`, `BitSetNot` and
// `BitSetAll` of ops.rs.
#![tactic(auto)]

ghost use Rattle.std.specs.Prelude.{true, ◌≡◌, suc, ◌%◌, ◌≤◌, ◌<◌, length, get_or};
ghost use Rattle.store.specs.Layout.{top_most};
ghost use Rattle.formula_codes.specs.Codes.{code_kind};
ghost use Rattle.formula_codes.specs.Formula.{slices};
ghost use Rattle.formula_word.specs.Machine.{made_of, moves, evaluated, begun, word_at, machine_word};
ghost use Rattle.formula_word.specs.Steps.{held, Joins, Turned};

use formula_codes::Formula;

// What codes are evaluated over: layer k, the bits that exist in the word, and the stores' words.
#[derive(Clone, Copy)]
struct Ground<'a> {
    k: usize,
    cut: u64,
    words: &'a [u64; 4],
}

// The last value that waits, where it will stand among the others in a ring of eight, and the codes that are left.
#[derive(Clone, Copy)]
struct Turn<'a> {
    last: u64,
    place: usize,
    rest: &'a [u8],
    ghost inside: { place < 8 },
}

// No value waits.
fn begin(codes: &[u8]) -> Turn<'_>
    ensures { (result.rest.now ≡ codes.now) × (result.place ≡ 0) × (result.last ≡ 0) }
{
    Turn {
        last: 0,
        place: 0,
        rest: codes,
    }
}

// Whether the codes begin with two stores and what joins them.
fn joins(codes: &[u8]) -> bool
    ensures { result ≡ true → Joins codes.now }
{
    matches!(codes, [0..=3, 0..=3, 16..=18, ..])
}

// How far a code moves the place of the last value, in a ring of eight.
#[tactic(auto, using(crate::proofs::Arms::moved))]
fn moves(code: u8) -> usize
    ensures { (result ≡ moves (code_kind code)) × (result ≤ 7) }
{
    match code {
        0..=3 => 1,
        16..=18 => 7,
        20 => 1,
        _ => 0,
    }
}

impl Ground<'_> {
    // What a code makes of the last two values.
    #[tactic(auto, using(crate::proofs::Arms::mades))]
    fn made(&self, code: u8, a: u64, b: u64) -> u64
        ensures { result ≡ made_of (code_kind code) (get_or self.now.words.now code 0) self.now.k self.now.cut a b }
    {
        match code {
            0..=3 => self.words[code as usize],
            16..=18 => formula_codes::joined(code, self.k, a, b),
            19 => if self.k == 0 { self.cut & !b } else { self.cut },
            20 => self.cut,
            _ => b,
        }
    }

    // One code: the last value goes to its place, and the code's is the last.
    #[tactic(auto, using(crate::proofs::Arms::turned_one))]
    fn one<'c>(&self, t: Turn<'c>, stack: &mut [u64; 8]) -> Turn<'c>
        requires { 0 < length t.rest.now }
        ensures { Turned self.now (held stack.old t.entry.place t.entry.last) t.entry.rest.now
            (held stack.new result.place result.last) result.rest.now }
    {
        let code = t.rest[0];
        stack[t.place] = t.last;
        let below = stack[(t.place + 7) % 8];
        Turn {
            last: self.made(code, below, t.last),
            place: (t.place + moves(code)) % 8,
            rest: &t.rest[1..],
        }
    }

    // Three codes at a time, where two stores are joined, and a fourth that joins what waits with them: no value waits for the stack, which
    // is left as the codes leave it one by one.
    #[tactic(auto, using(crate::proofs::Arms::turned_three))]
    fn three<'c>(&self, t: Turn<'c>, stack: &mut [u64; 8]) -> Turn<'c>
        requires { Joins t.rest.now }
        ensures { Turned self.now (held stack.old t.entry.place t.entry.last) t.entry.rest.now
            (held stack.new result.place result.last) result.rest.now }
    {
        let a = self.words[t.rest[0] as usize];
        let b = self.words[t.rest[1] as usize];
        let e = (t.place + 1) % 8;
        stack[t.place] = t.last;
        stack[e] = a;
        stack[(t.place + 2) % 8] = b;
        let v = formula_codes::joined(t.rest[2], self.k, a, b);
        let rest = &t.rest[3..];
        if let [op @ 16..=18, rest @ ..] = rest {
            stack[e] = v;
            return Turn {
                last: formula_codes::joined(*op, self.k, t.last, v),
                place: t.place,
                rest,
            };
        }
        Turn {
            last: v,
            place: e,
            rest,
        }
    }

    // The next codes, one or three.
    fn turn<'c>(&self, t: Turn<'c>, stack: &mut [u64; 8]) -> Turn<'c>
        requires { 0 < length t.rest.now }
        ensures { Turned self.now (held stack.old t.entry.place t.entry.last) t.entry.rest.now
            (held stack.new result.place result.last) result.rest.now }
    {
        if joins(t.rest) {
            self.three(t, stack)
        } else {
            self.one(t, stack)
        }
    }

    // The codes one after another. Where they begin with two stores that are joined, these are a turn by themselves: nothing waits yet, so
    // that the places in the stack are known to the compiler.
    #[tactic(auto, unfolding(crate::specs::Machine::evaluated))]
    fn evaluate(&self, codes: &[u8]) -> u64
        ensures { result ≡ evaluated self.now.k self.now.cut self.now.words.now codes.now begun }
    {
        let mut stack = [0; 8];
        let mut t = begin(codes);
        if joins(codes) {
            t = self.three(t, &mut stack);
        }
        while !t.rest.is_empty() {
            t = self.turn(t, &mut stack);
        }
        t.last
    }
}

// A layer's word of a formula, made of its slices' words at one place, where the bits that exist are `cut`. Layers count modulo their number.
#[tactic(auto, unfolding(crate::specs::Machine::word_at))]
pub fn word_at(f: &Formula<'_>, layer: usize, cut: u64, at: usize) -> u64
    ensures { result ≡ word_at (slices f.now) f.now.codes.now (layer % suc top_most) cut at }
{
    let words = f.stores.map(|s| store::get(s, at));
    let ground = Ground {
        k: layer % store::LAYERS,
        cut,
        words: &words,
    };
    ground.evaluate(f.codes)
}

// Word i of a layer of a formula over four slices, those that are stores being of capacity n. Layers count modulo their number.
#[tactic(auto, unfolding(crate::specs::Machine::machine_word))]
pub fn word(f: &Formula<'_>, n: usize, layer: usize, i: usize) -> u64
    ensures { result ≡ machine_word n (slices f.now) f.now.codes.now layer i }
{
    let cut = formula_place::cut(true, n, layer, i);
    let at = formula_place::spot(n, layer, i);
    word_at(f, layer, cut, at)
}
