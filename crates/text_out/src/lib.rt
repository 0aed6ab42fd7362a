// What the programs write: output joined in a lent buffer, and decimal numbers.
#![tactic(auto)]

ghost use Rattle.std.specs.Prelude.{◌++◌, ◌∷◌, []};
ghost use Rattle.text_out.specs.Out.{Puts, decimal_of};

// the file descriptor of standard output
const STDOUT_FILENO: i32 = 1;

// Writes the first `at` bytes to standard output, all where there are fewer.
pub fn flush(buf: &[u8], at: usize) {
    io::write_all(STDOUT_FILENO, &buf[..at.min(buf.len())]);
}

// Output joined in a lent buffer, of which the first `at` bytes are filled.
#[derive(Drop)]
pub struct Out<'a> {
    pub buf: &'a mut [u8],
    pub at: usize,
}

impl Out<'_> {
    // Writes the filled bytes to standard output.
    pub fn flush(&self) {
        flush(self.buf, self.at);
    }

    // Puts a byte behind those that are filled. A full buffer is written out first.
    pub fn put_byte(&mut self, b: u8)
        ensures { Puts self.old self.new (b ∷ []) }
    {
        if self.at >= self.buf.len() {
            self.flush();
            self.at = 0;
        }
        if self.at < self.buf.len() {
            self.buf[self.at] = b;
            self.at += 1;
        }
    }

    pub fn put_all(&mut self, bytes: &[u8])
        ensures { Puts self.old self.new bytes.now }
    {
        for &b in bytes {
            self.put_byte(b);
        }
    }

    // Puts the decimal digits of a number, with no zero in front.
    pub fn put_number(&mut self, n: u64)
        ensures { Puts self.old self.new (decimal_of n) }
    {
        let mut digits = [0u8; 20];
        let k = io::decimal(n, &mut digits);
        self.put_all(&digits[..k]);
    }

    // `?` and the number of a line that says nothing.
    pub fn put_unknown(&mut self, line: u64)
        ensures { Puts self.old self.new (63 ∷ 32 ∷ (decimal_of line ++ (10 ∷ []))) }
    {
        self.put_all(b"? ");
        self.put_number(line);
        self.put_byte(b'\n');
    }
}
