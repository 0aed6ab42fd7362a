// Or, and, xor of one word with another, told which.
#![tactic(auto)]

ghost use Rattle.std.specs.Prelude.{◌≡◌, get_or};
ghost use Rattle.ops_word.specs.Op.{op_word, decider};
ghost use Rattle.ops_word.specs.Named.{code, named};

// The operations.
#[derive(Clone, Copy, PartialEq, Eq)]
pub enum Op {
    And,
    Or,
    Xor,
}

impl From<u64> for Op {
    ghost from_gives = { λ n op. op ≡ named n };

    // The operation of a formula's code; what is neither 16 nor 17 counts as xor.
    fn from(n: u64) -> Op {
        match n {
            16 => Op::And,
            17 => Op::Or,
            _ => Op::Xor,
        }
    }
}

impl Op {
    // One word with another.
    #[tactic(auto, unfolding(crate::specs::Op::op_word))]
    pub fn combine(self, x: u64, y: u64) -> u64
        ensures { result ≡ op_word (code self) x y }
    {
        match self {
            Op::And => x & y,
            Op::Or => x | y,
            Op::Xor => x ^ y,
        }
    }

    // The word that decides, x or what stands at place c of the other part: where it is 0, x stays. The other part is read only where it
    // decides, so that nothing waits for a word that does not.
    #[tactic(auto, unfolding(crate::specs::Op::decider))]
    pub fn moving(self, x: u64, other: &[u64], c: usize) -> u64
        ensures { result ≡ decider (code self) x (get_or other.now c 0) }
    {
        match self {
            Op::And => x,
            Op::Or | Op::Xor => store::get(other, c),
        }
    }
}
