// What the listing program prints for a letter, an id and an answer.
#![tactic(auto)]

ghost use Rattle.std.specs.Prelude.{◌≡◌};
ghost use Rattle.store.specs.Answer.{number};
ghost use Rattle.text_out.specs.Out.{Puts};
ghost use Rattle.listing_printed.specs.Reply.{refused_end, end_text, reply_of};

use store::Refusal;
use text_out::Out;

// The word of an answer, with the blank before it and the line's end behind it.
#[tactic(auto, unfolding(crate::specs::Reply::end_text))]
fn word(letter: u8, yes: bool) -> &'static [u8]
    ensures { result.now ≡ end_text letter (Ok yes) }
{
    match (letter, yes) {
        (b'a', true) => b" held\n",
        (b'a', false) => b" new\n",
        (b'r', true) => b" gone\n",
        (b'r', false) => b" absent\n",
        (_, true) => b" yes\n",
        (_, false) => b" no\n",
    }
}

// ` refused` and the number, to the line's end.
pub fn put_refused(out: &mut Out, why: Refusal)
    ensures { Puts out.old out.new (refused_end (number why)) }
{
    out.put_all(b" refused ");
    out.put_number(u64::from(u32::from(why)));
    out.put_byte(b'\n');
}

// What is printed for a letter and an id that were answered.
pub fn put_reply(out: &mut Out, letter: u8, id: u32, answer: Result<bool, Refusal>)
    ensures { Puts out.old out.new (reply_of letter id answer) }
{
    out.put_byte(letter);
    out.put_byte(b' ');
    out.put_number(u64::from(id));
    match answer {
        Ok(yes) => out.put_all(word(letter, yes)),
        Err(why) => put_refused(out, why),
    }
}
