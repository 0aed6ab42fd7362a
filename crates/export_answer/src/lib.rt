// What a caller in C or Rust is answered: structs of two numbers, made of the answers of the calls.
#![tactic(auto)]

ghost use Rattle.std.specs.Prelude.{cond, ◌≡◌, ℕ};
ghost use Rattle.store.specs.Answer.{on_paper};
ghost use Rattle.export_answer.specs.Abi.{answer_of, bit_told};

use store::Refusal;

// The refusal's number, 0 for none, and the value, 0 where there is none.
#[repr(C)]
#[derive(Clone, Copy)]
pub struct Answer {
    pub refusal: u64,
    pub value: u64,
}

// A part of a store: its first word and how many. No layer is empty, so a length of 0 stands for refusal 2.
#[repr(C)]
#[derive(Clone, Copy)]
pub struct Part {
    pub start: u64,
    pub length: u64,
}

// A bit's number, if there is one.
#[repr(C)]
#[derive(Clone, Copy)]
pub struct Bit {
    pub some: u64,
    pub bit: u64,
}

impl From<Option<u64>> for Bit {
    ghost from_gives = { λ o b. b ≡ bit_told o };

    // The bit, or none.
    fn from(o: Option<u64>) -> Bit {
        match o {
            Some(bit) => Bit { some: 1, bit },
            None => Bit { some: 0, bit: 0 },
        }
    }
}

// What a call answers where it does not refuse, told as a number.
pub trait Value {
    ghost number: { Self → ℕ };

    // The number that stands second in an answer.
    fn number(self) -> u64
        ensures { result ≡ number self };
}

// Yes is 1, no is 0.
impl Value for bool {
    ghost number = { λ b. cond b 1 0 };

    fn number(self) -> u64 {
        u64::from(self)
    }
}

// Done is 0.
impl Value for () {
    ghost number = { λ _. 0 };

    fn number(self) -> u64 {
        0
    }
}

// An id.
impl Value for u32 {
    ghost number = { λ id. id };

    fn number(self) -> u64 {
        self.into()
    }
}

// A word.
impl Value for u64 {
    ghost number = { λ w. w };

    fn number(self) -> u64 {
        self
    }
}

// A length or a capacity.
impl Value for usize {
    ghost number = { λ n. n };

    fn number(self) -> u64 {
        self as u64
    }
}

impl<V: Value> From<Result<V, Refusal>> for Answer {
    ghost from_gives = { λ r a. a ≡ answer_of (on_paper V.number r) };

    // The answer of a call that may refuse.
    fn from(r: Result<V, Refusal>) -> Answer {
        match r {
            Ok(v) => Answer {
                refusal: 0,
                value: v.number(),
            },
            Err(why) => Answer {
                refusal: u64::from(u32::from(why)),
                value: 0,
            },
        }
    }
}
