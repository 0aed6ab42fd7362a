// The chunk map's reader: everything is checked before anything is written. Document 01, "Chunk map".
#![tactic(auto)]

ghost use Rattle.std.specs.Prelude.{◌≡◌, ◌+◌, ◌≤◌, length, replicate, Ok, MatchResult};
ghost use Rattle.util.specs.Outcome.{Settled};
ghost use Rattle.store.specs.Answer.{number_paper, did_paper, judged};
ghost use Rattle.store.specs.Build.{build};
ghost use Rattle.store.specs.Layout.{max_cap, layer_len, StoreOf};
ghost use Rattle.map_format.specs.Bytes.{num_at};
ghost use Rattle.map_read.specs.Calls.{map_capacity_of, read_of};
ghost use Rattle.map_read.specs.Judge.{number_in, word_in, entry_ok};
ghost use Rattle.map_read.specs.Steps.{filled, entries_of, Entries, HeadOf, NoHead, Taken, Wrong};

use store::Refusal;

// The number at o, in 4 bytes.
fn number(bytes: &[u8], o: usize) -> u32
    requires { o + 4 ≤ length bytes.now }
    ensures { result ≡ num_at o 4 bytes.now }
{
    u32::from_le_bytes(bytes[o..o + 4].try_into().unwrap())
}

// An entry's number and its word.
fn parts(entry: &[u8; 12]) -> (usize, u64)
    ensures number { result.0 ≡ number_in entry.now }
    ensures word { result.1 ≡ word_in entry.now }
{
    let word = u64::from_le_bytes(entry[4..].try_into().unwrap());
    (number(entry, 0) as usize, word)
}

// What a map's header says: the capacity, the member count, and the entries behind it.
#[derive(Clone, Copy)]
struct Head<'a> {
    n: usize,
    members: u32,
    entries: &'a [[u8; 12]],
}

impl<'a> Head<'a> {
    // The header of a map, if it is one. The offset is only compared, and nothing is read through it.
    fn of(map: &'a [u8]) -> Result<Head<'a>, Refusal>
        ensures { MatchResult result (λ h. HeadOf map.now h) (λ e. NoHead map.now e) }
    {
        let Some((head, table)) = map.split_first_chunk::<16>() else {
            return Err(Refusal::Header);
        };
        let n = number(head, 0) as usize;
        let members = number(head, 4);
        let used = number(head, 8) as usize;
        let offset = number(head, 12);
        let (entries, _) = table.as_chunks();
        if store::is_capacity(n)
            && offset == 16
            && used <= store::words_for(n)
            && used <= entries.len()
        {
            Ok(Head {
                n,
                members,
                entries: &entries[..used],
            })
        } else {
            Err(Refusal::Header)
        }
    }
}

// Whether word x may stand at number q in a map of capacity n, the numbers below lo being used up.
#[tactic(auto, using(crate::proofs::Right::cut_same, crate::proofs::Right::words_here), unfolding(crate::specs::Judge::entry_ok))]
fn entry_ok(n: usize, lo: usize, q: usize, x: u64) -> bool
    requires { (1 ≤ n) × (n ≤ max_cap) }
    ensures { result ≡ entry_ok n lo q x }
{
    lo <= q && q < store::words_for(n) && x != 0 && map_format::cut(x, n, q) == x
}

// What is wrong with the entries: each is looked at, and the set bits are counted.
fn judge_entries(entries: &[[u8; 12]], n: usize, members: u32) -> Result<(), Refusal>
    requires { Entries n entries.now }
    ensures { result ≡ judged (entries_of n members entries.now) }
{
    let mut lo = 0;
    let mut ones = 0;
    for entry in entries {
        let (q, x) = parts(entry);
        if !entry_ok(n, lo, q, x) {
            return Err(Refusal::Entry);
        }
        ones += x.count_ones();
        lo = q + 1;
    }
    if ones == members {
        Ok(())
    } else {
        Err(Refusal::Members)
    }
}

// The entries of a map for a store of capacity n, or what is wrong with it: the first refusal.
fn judge(map: &[u8], n: usize) -> Result<&[[u8; 12]], Refusal>
    ensures { MatchResult result (λ es. Taken map.now n es.now) (λ e. Wrong map.now n e) }
{
    let head = Head::of(map)?;
    if head.n != n {
        return Err(Refusal::Capacities);
    }
    judge_entries(head.entries, n, head.members)?;
    Ok(head.entries)
}

// The words of the entries are put at their numbers.
fn place(layer: &mut [u64], entries: &[[u8; 12]])
    ensures { layer.new ≡ filled layer.old entries.now }
{
    for entry in entries {
        let (q, x) = parts(entry);
        store::put(layer, q, x);
    }
}

// Every layer of a store of capacity n is replaced by what the entries tell: layer 0 from nothing, and the summaries that it asks.
fn replace(entries: &[[u8; 12]], store: &mut [u64], n: usize) -> Result<(), Refusal>
    requires { StoreOf n store.old }
    ensures done { result ≡ Ok tt }
    ensures store { store.new ≡ build n (filled (replicate (layer_len n 0) 0) entries.now) }
{
    set_whole::clear(store)?;
    let start = store::start(store.len(), n, 0);
    place(&mut store[start..], entries);
    summary::rebuild(store)
}

// The capacity that a map names. Its header alone is looked at: for a store of that capacity the entries may still be refused.
pub fn capacity(map: &[u8]) -> Result<usize, Refusal>
    ensures { Settled number_paper (map_capacity_of map.now) result tt }
{
    let named = Head::of(map)?;
    Ok(named.n)
}

// Replaces a store's members by those of a map of its capacity.
pub fn read(map: &[u8], store: &mut [u64]) -> Result<(), Refusal>
    ensures { Settled did_paper (read_of map.now store.old) result store.new }
{
    let n = store::capacity(store)?;
    let entries = judge(map, n)?;
    replace(entries, store, n)
}
