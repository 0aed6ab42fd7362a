// One word of a summary: a bit for each of 64 words below it.
#![tactic(auto)]

ghost use Rattle.std.specs.Prelude.{◌≡◌, ◌≤◌, length, take, drop};
ghost use Rattle.store.specs.Build.{flag, flags};

// 1 for a word that is not zero.
fn mark(w: u64) -> u64
    ensures { result ≡ flag w }
{
    u64::from(w != 0)
}

// The flags of at most 64 words, with no branch.
fn marks(words: &[u64]) -> u64
    requires { length words.now ≤ 64 }
    ensures { result ≡ flags words.now }
{
    words.iter().rev().fold(0, |x, w| x << 1 | mark(*w))
}

// Each bit tells whether a word is not zero, for 64 words from word a on or those that are left. The last few come first, and then
// eight a turn.
pub fn gather(part: &[u64], a: usize) -> u64
    ensures { result ≡ flags (take 64 (drop a part.now)) }
{
    if part.len() <= a {
        return 0;
    }
    let (eights, rest) = part[a..part.len().min(a + 64)].as_chunks::<8>();
    eights
        .iter()
        .rev()
        .fold(marks(rest), |x, w| x << 8 | marks(w))
}
