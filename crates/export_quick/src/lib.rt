// The next member of a walk whose cursor is kept as ten words, where it costs no read: it is handed out from the words alone.
#![tactic(auto)]

ghost use Rattle.std.specs.Prelude.{◌≡◌, ◌<◌, get_or};
ghost use Rattle.store.specs.Layout.{max_cap};
ghost use Rattle.export_quick.specs.Handing.{ready_of, handed_id, handed_of, quick_of, quick_words};

// Whether nothing is refused and layer 0's mask has a bit.
#[tactic(auto, using(crate::proofs::Quickly::is_ok_store), unfolding(crate::specs::Handing::ready_of))]
fn ready(store: &[u64], words: &[u64; 10]) -> bool
    ensures { result ≡ ready_of store.now words.now }
{
    words[0] != 0
        && store::capacity(store).is_ok()
        && walk::are_prefixes(words[5], words[6], words[7])
}

// Layer 0's lowest bit is handed out, with no read.
#[tactic(auto, using(crate::proofs::Quickly::words_handed), unfolding(crate::specs::Handing::handed_id, crate::specs::Handing::handed_of))]
fn give(words: &mut [u64; 10]) -> u64
    requires { (0 < get_or words.old 0 0) × (get_or words.old 5 0 < max_cap) }
    ensures value { result ≡ handed_id words.old }
    ensures words_after { words.new ≡ handed_of words.old }
{
    let m = words[0];
    let id = words[5] + u64::trailing_zeros(m) as u64;
    words[0] = util::drop_lowest(m);
    words[9] = 0;
    id
}

// The next member where it costs no read and nothing is refused; else none, and the words stay.
#[tactic(auto, using(crate::proofs::Quickly::has_bit, crate::proofs::Quickly::small))]
pub fn quick(store: &[u64], words: &mut [u64; 10]) -> Option<u64>
    ensures value { result ≡ quick_of store.now words.old }
    ensures words_after { words.new ≡ quick_words store.now words.old }
{
    if ready(store, words) {
        Some(give(words))
    } else {
        None
    }
}
