// What the listing program does and prints for a line that is read.
#![tactic(auto)]

ghost use Rattle.std.specs.Prelude.{◌≡◌};
ghost use Rattle.text_out.specs.Out.{Puts};
ghost use Rattle.listing_replies.specs.Replies.{after_of, printed_of};

use listing_line::Command;
use listing_printed::put_reply;
use text_out::Out;

// Command c stands in line `number`; where there is none, `?` and that number are printed.
#[tactic(auto, using(crate::proofs::Printing::reply_printed))]
pub fn reply(store: &mut [u64], out: &mut Out, c: Command, number: u64)
    ensures printed { Puts out.old out.new (printed_of store.old c number) }
    ensures stored { store.new ≡ after_of store.old c }
{
    match c {
        Command::Add(id) => put_reply(out, b'a', id, set_edit::add(store, id)),
        Command::Remove(id) => put_reply(out, b'r', id, set_edit::remove(store, id)),
        Command::Contains(id) => put_reply(out, b'c', id, set_member::contains(store, id)),
        Command::List => listing_members::put_members(out, store),
        Command::Unknown => out.put_unknown(number),
    }
}
