// Where an id stands in a lent store, and whether it is a member: what every call on an id begins with.
#![tactic(auto)]

ghost use Rattle.std.specs.Prelude.{◌≡◌, ◌/◌, ltb};
ghost use Rattle.util.specs.Outcome.{Settled};
ghost use Rattle.store.specs.Answer.{asked_paper};
ghost use Rattle.store.specs.Word.{word};
ghost use Rattle.set_member.specs.Calls.{locate_of, contains_of};
ghost use Rattle.set_member.specs.Place.{place_paper, Placed};

use store::Refusal;

// Where an id stands in a store: the capacity, where layer 0 starts, and the id's layer-0 word.
#[derive(Clone, Copy)]
pub struct Place {
    pub n: usize,
    pub start: usize,
    pub word: u64,
}

// Whether an id has room: ids stop below the capacity.
pub fn has_room(id: u32, n: usize) -> bool
    ensures { result ≡ ltb id n }
{
    (id as usize) < n
}

// What every call on an id begins with: its tests, and the word that it reads.
#[tactic(auto, using(crate::proofs::Places::word_inside))]
pub fn locate(store: &[u64], id: u32) -> Result<Place, Refusal>
    ensures { Settled place_paper (locate_of store.now id) result tt }
{
    let n = store::capacity(store)?;
    if !has_room(id, n) {
        return Err(Refusal::Id);
    }
    let start = store::start(store.len(), n, 0);
    let word = store[store::id_word(start, id)];
    Ok(Place { n, start, word })
}

// Whether the id is a member: below the capacity, with its layer-0 bit set.
pub fn contains(store: &[u64], id: u32) -> Result<bool, Refusal>
    ensures { Settled asked_paper (contains_of store.now id) result tt }
{
    match locate(store, id) {
        Ok(place) => Ok(util::is_set(place.word, id as usize)),
        Err(Refusal::Id) => Ok(false),
        Err(no) => Err(no),
    }
}
