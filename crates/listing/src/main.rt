// The listing program: lines of standard input add, remove and ask for ids, and each line's answer is printed. Input is read in pieces of
// 65,536 bytes, and a line that a piece's end cuts goes on in the next one; of a line its first 13 bytes are kept, since no line that
// means something is longer than 12. What is printed is joined in a buffer of 65,536 bytes. The store is a store and sound at every line.
#![tactic(auto)]

ghost use Rattle.std.specs.Prelude.{◌+◌, ◌≤◌, ◌<◌, ◌^◌, length};
ghost use Rattle.io.specs.Counts.{IsPrefixLen};
ghost use Rattle.listing_replies.specs.Replies.{Good};

use text_in::Line;
use text_out::Out;

// the file descriptor of standard input
const STDIN_FILENO: i32 = 0;

// The store, the line so far, what is printed, and how many lines ended.
#[derive(Drop)]
struct Listing<'a> {
    store: &'a mut [u64],
    line: Line<'a>,
    out: Out<'a>,
    number: u64,
}

impl Listing<'_> {
    // The line is ended: it is answered, and the next begins.
    fn answer(&mut self)
        requires counted { self.old.number + 1 < 2 ^ 64 }
        requires good { Good self.old.store.now }
        ensures counted { self.new.number ≤ self.old.number + 1 }
        ensures good { Good self.new.store.now }
    {
        self.number += 1;
        let command = listing_line::parse(self.line.bytes());
        listing_replies::reply(self.store, &mut self.out, command, self.number);
        self.line.len = 0;
    }

    // A piece of the input.
    fn feed(&mut self, piece: &[u8])
        requires counted { self.old.number + length piece.now + 1 < 2 ^ 64 }
        requires good { Good self.old.store.now }
        ensures counted { self.new.number ≤ self.old.number + length piece.now }
        ensures good { Good self.new.store.now }
    {
        let mut from = 0;
        while let Some(next) = self.line.gather(piece, from) {
            self.answer();
            from = next;
        }
    }
}

// Reads a piece and answers how many bytes it has: 0 at the input's end, and where more came than are left to take.
fn fill(piece: &mut [u8], left: u64) -> usize
    ensures read { IsPrefixLen result piece.new }
    ensures taken { result ≤ left }
{
    let n = io::read_full(STDIN_FILENO, piece);
    if n as u64 <= left { n } else { 0 }
}

// Reads to the end of the input. `left` is how many more bytes are taken: it falls by what each turn brings, so the loop ends, and the
// number of a line, which is at most the number of bytes taken, never wraps. A last line that lacks its newline is answered at the end.
fn main() {
    // the capacity, and the words that it takes, as document 01 names them
    let mut store = [0u64; 4163];
    let _ = set_whole::open(&mut store, 262144);
    let mut line = [0u8; 13];
    let mut out = io::large_buffer();
    let mut piece = io::large_buffer();
    let mut listing = Listing {
        store: &mut store,
        line: Line {
            buf: &mut line,
            len: 0,
        },
        out: Out {
            buf: &mut out,
            at: 0,
        },
        number: 0,
    };
    let mut left = u64::MAX - 1;
    loop {
        let n = fill(&mut piece, left);
        left -= n as u64;
        listing.feed(&piece[..n]);
        // a piece that is not full is the last: the input ended, or a read failed
        if n < piece.len() {
            break;
        }
    }
    if 0 < listing.line.len {
        listing.answer();
    }
    listing.out.flush();
}
