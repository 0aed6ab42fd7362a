// The line of the listing program that names all members: `w`, and each id that a walk of the store hands out.
#![tactic(auto)]

ghost use Rattle.text_out.specs.Out.{Puts};
ghost use Rattle.listing_members.specs.Members.{members_line};

use text_out::Out;

// The whole line, each id after a blank. A slice that is no store is refused by its number.
pub fn put_members(out: &mut Out, store: &[u64])
    ensures { Puts out.old out.new (members_line store.now) }
{
    out.put_byte(b'w');
    if let Err(why) = store::capacity(store) {
        listing_printed::put_refused(out, why);
        return;
    }
    for id in walk_batches::ids(store) {
        out.put_byte(b' ');
        out.put_number(u64::from(id));
    }
    out.put_byte(b'\n');
}
