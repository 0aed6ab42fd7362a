// A walk of one store in batches of 64 ids, for a caller with no cursor: where it starts, and whether it goes on after a batch.
#![tactic(auto)]

ghost use Rattle.std.specs.Prelude.{◌≡◌};
ghost use Rattle.std.specs.Iterator.{YieldsFirst};
ghost use Rattle.std.specs.Iterator.Runs.{YieldsInOrder};
ghost use Rattle.walk_batches.specs.Calls.{started_of};
ghost use Rattle.walk_batches.specs.Ids.{ids_left, ids_of};
ghost use Rattle.walk_batches.specs.Steps.{goes_on};

mod each;

pub use each::Ids;
use walk::{Cursor, Layers, Ready};
use walk_fill::Stop;

// The cursor of a walk that is started, for a caller with none: zeros where the slice is no store.
pub fn started(store: &[u64]) -> Cursor
    ensures { result ≡ started_of store.now }
{
    walk::above(0).start(store).cursor
}

// How many ids a walk hands out in one batch.
pub const BATCH: usize = 64;

// The largest budget of word reads; a walk that had spent it would go on with the next batch.
pub const BUDGET: u64 = u64::MAX;

// Whether a walk goes on after a fill.
pub fn goes_on(stop: Stop) -> bool
    ensures { result ≡ goes_on stop }
{
    matches!(stop, Stop::Full | Stop::Paused)
}

// The ids that a walk of a store hands out, one after another; none where the slice is no store.
pub fn ids(store: &[u64]) -> Ids<'_>
    ensures left { ids_left result ≡ ids_of store.now }
    ensures runs { YieldsInOrder (YieldsFirst ids_left) ids_left }
{
    Ids {
        layers: Layers::of(store),
        ready: Ready {
            cursor: started(store),
        },
        batch: [0; BATCH],
        at: 0,
        count: 0,
    }
}
