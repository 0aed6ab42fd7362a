// What a line of the listing program means. Which lines are commands, both ways, and that a number that was put is read back, are theorems.
#![tactic(auto)]

ghost use Rattle.std.specs.Prelude.{◌≡◌};
ghost use Rattle.listing_line.specs.Line.{id_of, with_id, command_of};

#[derive(Clone, Copy)]
pub enum Command {
    Add(u32),
    Remove(u32),
    Contains(u32),
    List,
    Unknown,
}

// The id that the bytes spell, if they spell one and nothing else.
#[tactic(auto, unfolding(crate::specs::Line::id_of))]
fn read_id(bytes: &[u8]) -> Option<u32>
    ensures { result ≡ id_of bytes.now }
{
    if bytes.len() > 10 {
        return None;
    }
    let (n, end) = text_in::number(bytes, 0, 4294967295)?;
    // a conversion that may fail would ask again what `number` has asked
    (end == bytes.len()).then_some(n as u32)
}

// The command of a letter before an id.
#[tactic(auto, unfolding(crate::specs::Line::with_id))]
fn with_id(letter: u8, id: Option<u32>) -> Command
    ensures { result ≡ with_id letter id }
{
    match (letter, id) {
        (b'a', Some(i)) => Command::Add(i),
        (b'r', Some(i)) => Command::Remove(i),
        (b'c', Some(i)) => Command::Contains(i),
        _ => Command::Unknown,
    }
}

#[tactic(auto, unfolding(crate::specs::Line::command_of))]
pub fn parse(line: &[u8]) -> Command
    ensures { result ≡ command_of line.now }
{
    match line {
        [b'w'] => Command::List,
        [letter, b' ', id @ ..] => with_id(*letter, read_id(id)),
        _ => Command::Unknown,
    }
}
