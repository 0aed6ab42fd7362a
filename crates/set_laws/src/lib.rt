// No code: what a caller wants of the calls on one store, soundness and members.
#![tactic(auto)]
