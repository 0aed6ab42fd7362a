// A cursor as ten lent words, for callers that keep it as plain numbers: masks in words 0 to 3, prefixes in words 5 to 7, the reads of the
// last call in word 9. Words 4 and 8 are room for a fifth layer.
#![tactic(auto)]

ghost use Rattle.std.specs.Prelude.{◌≡◌};
ghost use Rattle.export_cursor.specs.Ten.{prefix_of, cursor_of, cursor_words};

use walk::Cursor;

// A prefix word as a prefix, which has 32 bits. A greater number counts as the greatest of these; neither is a prefix that a walk takes.
#[tactic(auto, unfolding(crate::specs::Ten::prefix_of))]
fn prefix_in(w: u64) -> u32
    ensures { result ≡ prefix_of w }
{
    u32::try_from(w).unwrap_or(u32::MAX)
}

// The cursor that ten words hold: masks in words 0 to 3, prefixes in words 5 to 7.
#[tactic(auto, unfolding(crate::specs::Ten::cursor_of))]
pub fn cursor_in(words: &[u64; 10]) -> Cursor
    ensures { result ≡ cursor_of words.now }
{
    let [m0, m1, m2, m3, _, p0, p1, p2, ..] = *words;
    Cursor {
        masks: [m0, m1, m2, m3],
        prefix: [prefix_in(p0), prefix_in(p1), prefix_in(p2)],
    }
}

// A cursor and the reads written to its words. Words 4 and 8 are room for a fifth layer and stay.
#[tactic(auto, unfolding(crate::specs::Ten::cursor_words))]
pub fn cursor_out(words: &mut [u64; 10], c: Cursor, reads: u64)
    ensures { words.new ≡ cursor_words words.old c reads }
{
    let [m0, m1, m2, m3] = c.masks;
    let [p0, p1, p2] = c.prefix;
    *words = [
        m0, m1, m2, m3, words[4], p0 as u64, p1 as u64, p2 as u64, words[8], reads,
    ];
}
