// No code: what walks do, over any layer words and on one store.
#![tactic(auto)]
