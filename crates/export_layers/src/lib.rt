// Reading the layers, for C and Rust: slices arrive as pointer and length, and a layer is told by where it stands.
#![tactic(auto)]

ghost use Rattle.std.specs.Prelude.{◌≡◌, ◌<◌};
ghost use Rattle.set_layers.specs.Calls.{word_of};
ghost use Rattle.export_answer.specs.Abi.{answer_of};
ghost use Rattle.export_layers.specs.Parts.{part_of};

use export_answer::{Answer, Part};

// Where layer k, one of the three that are handed back, stands in its store.
fn part(store: &[u64], k: usize) -> Part
    requires { k < 3 }
    ensures { result ≡ part_of store.now k }
{
    let Ok(n) = store::capacity(store) else {
        return Part {
            start: 0,
            length: 0,
        };
    };
    let a = store::start(store.len(), n, k);
    let e = store::end(n, k);
    Part {
        start: a as u64,
        length: (e - a) as u64,
    }
}

#[unsafe(no_mangle)]
pub extern "C" fn fen_get_from_layer(store: &[u64], layer: usize, index: usize) -> Answer
    ensures { result ≡ answer_of (word_of store.now layer index).numbers }
{
    Answer::from(set_layers::get_from_layer(store, layer, index))
}

#[unsafe(no_mangle)]
pub extern "C" fn fen_layer0(store: &[u64]) -> Part
    ensures { result ≡ part_of store.now 0 }
{
    part(store, 0)
}

#[unsafe(no_mangle)]
pub extern "C" fn fen_layer1(store: &[u64]) -> Part
    ensures { result ≡ part_of store.now 1 }
{
    part(store, 1)
}

#[unsafe(no_mangle)]
pub extern "C" fn fen_layer2(store: &[u64]) -> Part
    ensures { result ≡ part_of store.now 2 }
{
    part(store, 2)
}
