// What the programs read: lines joined from pieces of input, and decimal numbers in them.
#![tactic(auto)]

ghost use Rattle.std.specs.Prelude.{◌≡◌, ◌==◌, slice_get, take, drop, position};
ghost use Rattle.text_in.specs.Line.{held_line, joined, taken_text, gather_of};
ghost use Rattle.text_in.specs.Number.{digits, number_of};

// A line as it is joined: the first `len` bytes of a lent buffer.
#[derive(Drop)]
pub struct Line<'a> {
    pub buf: &'a mut [u8],
    pub len: usize,
}

impl Line<'_> {
    // The line so far: the whole buffer, if it has fewer bytes than `len`.
    pub fn bytes(&self) -> &[u8]
        ensures { result.now ≡ take self.now.len self.now.buf.now }
    {
        let n = self.len.min(self.buf.len());
        &self.buf[..n]
    }

    // Puts bytes behind the line, as many as fit.
    fn keep(&mut self, bytes: &[u8])
        ensures buffer { self.new.buf.ghost_name ≡ self.old.buf.ghost_name }
        ensures kept { held_line self.new ≡ joined (held_line self.old) bytes.now }
    {
        let at = self.len.min(self.buf.len());
        let n = bytes.len().min(self.buf.len() - at);
        self.buf[at..at + n].copy_from_slice(&bytes[..n]);
        self.len += n;
    }

    // Takes the bytes of `piece` from `from` on, up to and without a newline, behind the line, and answers where the next line starts, if
    // a newline ended this one. Bytes that do not fit are dropped, so a line that fills the buffer may have been longer.
    pub fn gather(&mut self, piece: &[u8], from: usize) -> Option<usize>
        ensures buffer { self.new.buf.ghost_name ≡ self.old.buf.ghost_name }
        ensures taken { taken_text (held_line self.new) result ≡ gather_of (held_line self.old) piece.now from }
    {
        let rest = piece.get(from..)?;
        let Some(end) = newline(rest) else {
            self.keep(rest);
            return None;
        };
        self.keep(&rest[..end]);
        Some(from + end + 1)
    }
}

// Where the first newline stands, if one does.
fn newline(bytes: &[u8]) -> Option<usize>
    ensures { result ≡ position (λ b. b == 10) bytes.now }
{
    bytes.iter().position(|b| *b == b'\n')
}

// The digit that stands at a place, if one does.
fn digit_at(line: &[u8], at: usize) -> Option<u32>
    ensures { result ≡ slice_get (digits (drop at line.now)) 0 }
{
    char::from(*line.get(at)?).to_digit(10)
}

// The decimal number that starts at `from`, with the place after its last digit; none where there is no digit or it is more than `most`.
pub fn number(line: &[u8], from: usize, most: u64) -> Option<(u64, usize)>
    ensures { result ≡ number_of line.now from most }
{
    let mut value = 0u64;
    let mut end = from;
    while let Some(d) = digit_at(line, end) {
        value = value.checked_mul(10)?.checked_add(u64::from(d))?;
        if value > most {
            return None;
        }
        end += 1;
    }
    (from < end).then_some((value, end))
}
