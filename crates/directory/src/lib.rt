// The container writer's directory: chunks given to items and taken back. It leans on the promises of the set alone. Past a call's own test the
// set refuses nothing that is asked of it, so what it answers to a change is not looked at.
#![tactic(auto)]

ghost use Rattle.std.specs.Prelude.{◌≡◌, length};
ghost use Rattle.util.specs.Outcome.{Settled};
ghost use Rattle.store.specs.Answer.{did_paper, number_paper, judged};
ghost use Rattle.set_free.specs.Calls.{lowest_of};
ghost use Rattle.directory.specs.Calls.{is_item, item_refusal, room_refusal, return_refusal, directory_open_of, give_of, take_back_of};
ghost use Rattle.directory.specs.Lent.{slices, SameSlices};

use store::Refusal;

// Items are numbered from 1 to this.
const ITEMS: u32 = 200;

// One store and one owner byte per chunk, 0 for free, which are always lent together.
#[derive(Drop)]
pub struct Directory<'a> {
    pub store: &'a mut [u64],
    pub owners: &'a mut [u8],
}

// Whether a number is an item's.
#[tactic(auto, unfolding(crate::specs::Calls::is_item))]
fn is_item(item: u32) -> bool
    ensures { result ≡ is_item item }
{
    1 <= item && item <= ITEMS
}

impl Directory<'_> {
    // What stands in the way of opening with these slices for a capacity of n.
    fn can_open(&self, n: usize) -> Result<(), Refusal>
        ensures { let d = slices self.now in result ≡ judged (room_refusal (length d.store) (length d.owners) n) }
    {
        set_whole::can_open(n, self.store.len())?;
        if self.owners.len() != n {
            return Err(Refusal::Owners);
        }
        Ok(())
    }

    // What stands in the way of a call for an item.
    fn can_take(&self, item: u32) -> Result<(), Refusal>
        ensures { result ≡ judged (item_refusal (slices self.now) item) }
    {
        let n = store::capacity(self.store)?;
        if self.owners.len() != n {
            return Err(Refusal::Owners);
        }
        if !is_item(item) {
            return Err(Refusal::Item);
        }
        Ok(())
    }

    // What stands in the way of a return: as for an item, and then that the chunk's byte is another.
    fn can_return(&self, item: u32, chunk: u32) -> Result<(), Refusal>
        ensures { result ≡ judged (return_refusal (slices self.now) item chunk) }
    {
        self.can_take(item)?;
        let owner = self.owners.get(chunk as usize).ok_or(Refusal::Owner)?;
        if u32::from(*owner) == item {
            Ok(())
        } else {
            Err(Refusal::Owner)
        }
    }

    // The lowest chunk that is free, or the capacity where there is none.
    fn lowest_free(&self) -> u32
        ensures { result ≡ lowest_of (slices self.now).store }
    {
        set_free::lowest_free(self.store)
    }

    // Empties the store and the bytes, for a capacity of n.
    pub fn open(&mut self, n: u32) -> Result<(), Refusal>
        ensures kept { SameSlices self.old self.new }
        ensures settled { Settled did_paper (directory_open_of (slices self.old) n) result (slices self.new) }
    {
        self.can_open(n as usize)?;
        let _ = set_whole::open(self.store, n);
        self.owners.fill(0);
        Ok(())
    }

    // Gives the lowest free chunk to an item; answers which.
    pub fn give(&mut self, item: u32) -> Result<u32, Refusal>
        ensures kept { SameSlices self.old self.new }
        ensures settled { Settled number_paper (give_of (slices self.old) item) result (slices self.new) }
    {
        self.can_take(item)?;
        let chunk = self.lowest_free();
        if self.owners.len() <= chunk as usize {
            return Err(Refusal::Full);
        }
        let _ = set_edit::add(self.store, chunk);
        self.owners[chunk as usize] = item as u8;
        Ok(chunk)
    }

    // Takes a chunk back from the item that owns it.
    pub fn take_back(&mut self, item: u32, chunk: u32) -> Result<(), Refusal>
        ensures kept { SameSlices self.old self.new }
        ensures settled { Settled did_paper (take_back_of (slices self.old) item chunk) result (slices self.new) }
    {
        self.can_return(item, chunk)?;
        let _ = set_edit::remove(self.store, chunk);
        self.owners[chunk as usize] = 0;
        Ok(())
    }
}
