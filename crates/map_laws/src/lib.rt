// No code: what is written is read back, and what is read is written back.
#![tactic(auto)]
