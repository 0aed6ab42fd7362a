// The chunk map's writer: layer 0 as bytes. Document 01, "Chunk map".
#![tactic(auto)]

ghost use Rattle.std.specs.Prelude.{[], ◌∷◌, ◌≡◌, ◌+◌, ◌-◌, ◌*◌, ◌/◌, ◌≤◌, length, MatchResult};
ghost use Rattle.std.specs.List.{concat};
ghost use Rattle.std.proofs.lemmas.List.Edits.{sets};
ghost use Rattle.util.specs.Outcome.{Settled};
ghost use Rattle.store.specs.Answer.{number_paper};
ghost use Rattle.map_write.specs.Calls.{map_length_of, write_of};
ghost use Rattle.map_write.specs.Map.{head_of, map_of, map_len};
ghost use Rattle.map_write.specs.Steps.{words_of, Tells, NoStoreHere, MapFits, Room, Entered, Headed};

use store::Refusal;

// The bytes stand from o on.
fn put_bytes(buf: &mut [u8], o: usize, bytes: &[u8])
    requires { o + length bytes.now ≤ length buf.old }
    ensures { buf.new ≡ sets buf.old o bytes.now }
{
    buf[o..o + bytes.len()].copy_from_slice(bytes);
}

// A map while it is written: the buffer, where the next entry stands, and the members so far.
#[derive(Drop)]
struct Draft<'a> {
    buf: &'a mut [u8],
    at: usize,
    members: u32,
}

impl Draft<'_> {
    // The entry of word q is put, if the word is not zero, and its members are counted.
    fn put(&mut self, q: usize, x: u64)
        requires { Room q (x ∷ []) self.old }
        ensures { Entered q (x ∷ []) self.old self.new }
    {
        if x != 0 {
            let at = self.at;
            put_bytes(self.buf, at, &(q as u32).to_le_bytes());
            put_bytes(self.buf, at + 4, &x.to_le_bytes());
            self.at = at + 12;
            self.members += x.count_ones();
        }
    }

    // The entries of the words, numbered from q on.
    fn put_all(&mut self, q: usize, words: &[u64])
        requires { Room q words.now self.old }
        ensures { Entered q words.now self.old self.new }
    {
        for (i, x) in words.iter().enumerate() {
            self.put(q + i, *x);
        }
    }

    // The entries of the first words, four a turn. Where four are zero together none is looked at alone.
    fn put_fours(&mut self, fours: &[[u64; 4]])
        requires { Room 0 (concat fours.now) self.old }
        ensures { Entered 0 (concat fours.now) self.old self.new }
    {
        for (k, four) in fours.iter().enumerate() {
            if four[0] | four[1] | four[2] | four[3] != 0 {
                self.put_all(4 * k, four);
            }
        }
    }

    // The header of a map of capacity n, in front of the entries.
    fn put_head(&mut self, n: usize)
        requires { Headed n self.old }
        ensures bytes { self.new.buf.now ≡ sets self.old.buf.now 0 (head_of n self.old.members ((self.old.at - 16) / 12)) }
        ensures at { self.new.at ≡ self.old.at }
        ensures same { self.new.buf.ghost_name ≡ self.old.buf.ghost_name }
    {
        let used = (self.at - 16) / 12;
        let members = self.members;
        put_bytes(self.buf, 0, &(n as u32).to_le_bytes());
        put_bytes(self.buf, 4, &members.to_le_bytes());
        put_bytes(self.buf, 8, &(used as u32).to_le_bytes());
        put_bytes(self.buf, 12, &16u32.to_le_bytes());
    }
}

// What a map tells of: a capacity, the layer 0 of a store of it, and for its last word that without the bits past the capacity.
#[derive(Clone, Copy)]
struct Told<'a> {
    n: usize,
    layer: &'a [u64],
    last: u64,
}

impl<'a> Told<'a> {
    // What the map of a store tells of. Layer 0 alone is read, so it is right on an unsound store too.
    #[tactic(auto, using(store::proofs::Inside::tested_start))]
    fn of(store: &'a [u64]) -> Result<Told<'a>, Refusal>
        ensures { MatchResult result (λ t. Tells store.now t) (λ e. NoStoreHere store.now e) }
    {
        let n = store::capacity(store)?;
        let layer = &store[store::start(store.len(), n, 0)..];
        let last = map_format::kept_word(layer, n, layer.len() - 1);
        Ok(Told { n, layer, last })
    }

    // Its map over the front of the buffer: the entries of all words, and then the header. Answers where the last entry ends.
    fn put(&self, buf: &mut [u8]) -> usize
        requires { MapFits self.now buf.old }
        ensures length { result ≡ map_len (words_of self.now) }
        ensures bytes { buf.new ≡ sets buf.old 0 (map_of self.now.n (words_of self.now)) }
    {
        let end = self.layer.len() - 1;
        let (fours, rest) = self.layer[..end].as_chunks::<4>();
        let mut draft = Draft {
            buf,
            at: 16,
            members: 0,
        };
        draft.put_fours(fours);
        draft.put_all(4 * fours.len(), rest);
        draft.put(end, self.last);
        draft.put_head(self.n);
        draft.at
    }
}

// How long the map of a store's members is: what `write` answers where the buffer has room, on an unsound store too.
pub fn length(store: &[u64]) -> Result<usize, Refusal>
    ensures { Settled number_paper (map_length_of store.now) result tt }
{
    let told = Told::of(store)?;
    Ok(map_format::map_length(told.layer, told.last))
}

// Writes the map of a store's members over the front of buf.
pub fn write(store: &[u64], buf: &mut [u8]) -> Result<usize, Refusal>
    ensures { Settled number_paper (write_of store.now buf.old) result buf.new }
{
    let told = Told::of(store)?;
    if map_format::map_fits(told.layer, told.last, buf.len()) {
        Ok(told.put(buf))
    } else {
        Err(Refusal::Buffer)
    }
}
