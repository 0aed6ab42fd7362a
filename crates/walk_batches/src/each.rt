// The ids that a walk of a store hands out, one after another. They are taken from it 64 at a time: a step of the walk for each id took about
// twice as long.

ghost use Rattle.std.specs.Prelude.{◌≡◌, ◌≤◌, length};
ghost use Rattle.store.specs.Layout.{top_most};
ghost use Rattle.walk.specs.Layers.{layer_words};
ghost use Rattle.walk_laws.specs.Rest.{Wf};
ghost use Rattle.walk_laws.specs.Walks.{Bounded};

use super::{BATCH, BUDGET};
use walk::{Layers, Ready};

// The words that the walk reads, where it stands, and the last ids that it handed out: those from `at` to `count` are still to come. What a
// walk refuses is asked once, before the first id.
#[derive(Drop)]
pub struct Ids<'a> {
    pub(crate) layers: Layers<'a>,
    pub(crate) ready: Ready,
    pub(crate) batch: [u32; BATCH],
    pub(crate) at: usize,
    pub(crate) count: usize,
    ghost words: { Bounded (layer_words layers) },
    ghost wf: { Wf top_most ready.cursor },
    ghost inside: { at ≤ count },
    ghost most: { count ≤ 64 },
    ghost long: { length batch ≡ 64 },
}

impl Ids<'_> {
    ghost use Rattle.std.specs.Prelude.{◌≡◌};
    ghost use Rattle.walk_batches.specs.Ids.{Refilled};

    // The next ids of the walk, where all are handed out that it gave; whether there are any.
    #[inline(never)]
    fn refill(&mut self) -> bool
        requires { self.old.at ≡ self.old.count }
        ensures { Refilled self.old result self.new }
    {
        loop {
            let b = walk_fill::fill_over(self.ready, &self.layers, BUDGET, &mut self.batch);
            self.ready = Ready { cursor: b.cursor };
            self.at = 0;
            self.count = b.count;
            if b.count > 0 {
                return true;
            }
            if !super::goes_on(b.stop) {
                return false;
            }
        }
    }
}

impl Iterator for Ids<'_> {
    ghost use Rattle.std.specs.Iterator.{YieldsFirst, item_count};
    ghost use Rattle.walk_batches.specs.Ids.{ids_left};

    type Item = u32;

    ghost next_gives = { YieldsFirst ids_left };

    ghost remaining = { item_count ids_left };

    fn next(&mut self) -> Option<u32> {
        if self.at == self.count && !self.refill() {
            return None;
        }
        let id = self.batch[self.at];
        self.at += 1;
        Some(id)
    }
}
