// The bit that splits a word's set bits: `average_ones` of the Rust's util.rs on 64-bit words.
#![tactic(auto)]

ghost use Rattle.std.specs.Prelude.{ℕ};
ghost use Rattle.util.specs.Outcome.{Settled};
ghost use Rattle.average.specs.Average.{paper, average_of};
ghost use Rattle.average.specs.Search.{Tallied, HalfStep, InRange};

// Masks of every other field of 1, 2, 4, 8, 16 and 32 bits.
const PAR0: u64 = !0 / 0x3;

const PAR1: u64 = !0 / 0x5;

const PAR2: u64 = !0 / 0x11;

const PAR3: u64 = !0 / 0x101;

const PAR4: u64 = !0 / 0x1_0001;

const PAR5: u64 = !0 / 0x1_0000_0001;

// The counts of set bits in all fields of 2, 4, 8, 16 and 32 bits.
#[derive(Clone, Copy)]
struct Tallies {
    a: u64,
    b: u64,
    c: u64,
    d: u64,
    e: u64,
}

// The set bits counted in parallel.
fn count_fields(n: u64) -> Tallies
    ensures { Tallied n result }
{
    let a = n - ((n >> 1) & PAR0);
    let b = (a & PAR1) + ((a >> 2) & PAR1);
    let c = (b + (b >> 4)) & PAR2;
    let d = (c + (c >> 8)) & PAR3;
    let e = (d + (d >> 16)) & PAR4;
    Tallies { a, b, c, d, e }
}

// A binary search: of the set bits below `result` the one with `target` of them at or above it is looked for, and `cur` of them are
// in the upper half of the field that is left.
#[derive(Clone, Copy)]
struct Search {
    result: u64,
    target: u64,
    cur: u64,
}

impl Search {
    // One step down: to the upper or the lower half of the field, by whether the upper one has enough set bits. `child` has the counts
    // of the fields of `stride` bits, and `mask` keeps one.
    fn descend(self, child: u64, stride: u64, mask: u64) -> Search
        requires { (n : ℕ) × (t : ℕ) × HalfStep n t self child stride mask }
        ensures { (n t : ℕ) → HalfStep n t self child stride mask → InRange n t stride result }
    {
        if self.cur < self.target {
            let result = self.result - 2 * stride;
            Search {
                result,
                target: self.target - self.cur,
                cur: (child >> (result - stride)) & mask,
            }
        } else {
            Search {
                cur: (child >> (self.result - stride)) & mask,
                ..self
            }
        }
    }
}

// The set bit that has half of the set bits, rounded down, at or above it; none if fewer than two are set.
pub fn average_ones(n: u64) -> Option<u64>
    ensures { Settled paper (average_of n) result tt }
{
    let l = count_fields(n);
    let cur = l.e >> 32;
    let count = (l.e + cur) & PAR5;
    if count <= 1 {
        return None;
    }
    let whole = Search {
        result: 64,
        target: count / 2,
        cur,
    };
    let s = whole
        .descend(l.d, 16, 255)
        .descend(l.c, 8, 15)
        .descend(l.b, 4, 7)
        .descend(l.a, 2, 3)
        .descend(n, 1, 1);
    if s.cur < s.target {
        Some(s.result - 2)
    } else {
        Some(s.result - 1)
    }
}
