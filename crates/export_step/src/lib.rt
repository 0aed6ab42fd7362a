// What a call of the walk says to a caller in C, and what it leaves in the ten words of its cursor.
#![tactic(auto)]

ghost use Rattle.std.specs.Prelude.{◌≡◌};
ghost use Rattle.export_step.specs.Answers.{step_of, stop_of, left_of, moved_of, cursor_after};

use walk::{Next, Step};
use walk_fill::{Batch, Stop};

// What a call of the walk says: 0 and the refusal's number; 1 and the member; 2 paused; 3 the end; 4 full. A fill says how many members.
#[repr(C)]
#[derive(Clone, Copy)]
pub struct StepAnswer {
    pub which: u64,
    pub value: u64,
}

impl From<Next> for StepAnswer {
    ghost from_gives = { λ n a. a ≡ step_of n };

    // What a step answers, in two numbers.
    fn from(n: Next) -> StepAnswer {
        match n {
            Next::Refused(no) => StepAnswer {
                which: 0,
                value: u64::from(u32::from(no)),
            },
            Next::Member(id) => StepAnswer {
                which: 1,
                value: u64::from(id),
            },
            Next::Paused => StepAnswer { which: 2, value: 0 },
            Next::End => StepAnswer { which: 3, value: 0 },
        }
    }
}

impl From<Batch> for StepAnswer {
    ghost from_gives = { λ b a. a ≡ stop_of b.stop b.count };

    // What a batch answers, in two numbers.
    fn from(b: Batch) -> StepAnswer {
        let value = b.count as u64;
        match b.stop {
            Stop::Refused(no) => StepAnswer {
                which: 0,
                value: u64::from(u32::from(no)),
            },
            Stop::Paused => StepAnswer { which: 2, value },
            Stop::End => StepAnswer { which: 3, value },
            Stop::Full => StepAnswer { which: 4, value },
        }
    }
}

// A step's cursor and reads are written, unless it is refused, and its answer said.
pub fn told_step(words: &mut [u64; 10], s: Step) -> StepAnswer
    ensures value { result ≡ moved_of s }
    ensures words_after { words.new ≡ cursor_after s words.old }
{
    if !matches!(s.answer, Next::Refused(_)) {
        export_cursor::cursor_out(words, s.cursor, s.reads);
    }
    s.answer.into()
}

// The same of a batch.
pub fn told_batch(words: &mut [u64; 10], b: Batch) -> StepAnswer
    ensures value { result ≡ stop_of b.stop b.count }
    ensures words_after { words.new ≡ left_of (stop_of b.stop b.count) words.old b.cursor b.reads }
{
    if !matches!(b.stop, Stop::Refused(_)) {
        export_cursor::cursor_out(words, b.cursor, b.reads);
    }
    b.into()
}
