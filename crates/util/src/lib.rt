// Bits and shifts: the Rust's util.rs on 64-bit words, and the lowest set bit.
#![tactic(auto)]

ghost use Rattle.std.specs.Prelude.{◌≡◌, ◌%◌, ◌-◌, ◌^◌, ◌≤◌, eqb};
ghost use Rattle.std.specs.Int.Count.{count_trailing_zeros};
ghost use Rattle.util.specs.Row.{offset_of, row_of, mask_of, offsets_of};
ghost use Rattle.util.specs.Word.{bit, bits, change};
ghost use Rattle.std.specs.Iterator.{YieldsFirst, item_count};

// Base two log of the number of bits in a word.
pub const BITS: usize = 6;

// The shift of each layer, from the bottom up. `offsets` fixes them all, and with them the number of bits.
pub const SHIFT0: usize = 0;

pub const SHIFT1: usize = SHIFT0 + BITS;

pub const SHIFT2: usize = SHIFT1 + BITS;

pub const SHIFT3: usize = SHIFT2 + BITS;

// The words of the layers 0, 1 and 2 that an id's bits stand in.
#[derive(Clone, Copy)]
pub struct Parents {
    pub layer0: usize,
    pub layer1: usize,
    pub layer2: usize,
}

// The word that the bit is in. What is shifted out is 0.
pub fn offset(index: u32, shift: usize) -> usize
    ensures { result ≡ offset_of index shift }
{
    if shift < 32 {
        (index as usize) >> shift
    } else {
        0
    }
}

// The place of the bit in its word.
pub fn row(index: u32, shift: usize) -> usize
    ensures { result ≡ row_of index shift }
{
    offset(index, shift) % 64
}

// The word with that bit set and no other.
pub fn mask(index: u32, shift: usize) -> u64
    ensures { result ≡ mask_of index shift }
{
    1u64 << row(index, shift)
}

// The words of three layers at once.
pub fn offsets(bit: u32) -> Parents
    ensures { result ≡ offsets_of bit }
{
    Parents {
        layer0: offset(bit, SHIFT1),
        layer1: offset(bit, SHIFT2),
        layer2: offset(bit, SHIFT3),
    }
}

// Whether a bit of a word is set; the bit's number counts modulo 64.
pub fn is_set(w: u64, b: usize) -> bool
    ensures { result ≡ eqb (bit w (b % 64)) 1 }
{
    w & (1u64 << (b % 64)) != 0
}

// The word with a bit set, or cleared; the bit's number counts modulo 64.
pub fn with_bit(w: u64, b: usize, on: bool) -> u64
    ensures { result ≡ change on w (b % 64) }
{
    let m = 1u64 << (b % 64);
    if on { w | m } else { w & !m }
}

// The word without its lowest set bit; 0 stays 0.
pub fn drop_lowest(w: u64) -> u64
    ensures { result ≡ w - 2 ^ count_trailing_zeros 64 w }
{
    if w == 0 {
        return 0;
    }
    w & (w - 1)
}

// The set bits of a word, the lowest first.
#[derive(Drop)]
pub struct Ones(pub u64);

impl Iterator for Ones {
    type Item = usize;

    ghost next_gives = { λ s r t. YieldsFirst (λ s. bits s.0) s r t × (t.0 ≤ s.0) };

    ghost remaining = { item_count (λ s. bits s.0) };

    // The lowest that is left, which is then taken off.
    #[tactic(auto, using(crate::proofs::Places::bits_none, crate::proofs::Places::bits_taken))]
    fn next(&mut self) -> Option<usize> {
        if self.0 == 0 {
            return None;
        }
        let b = self.0.trailing_zeros() as usize;
        self.0 = drop_lowest(self.0);
        Some(b)
    }
}
