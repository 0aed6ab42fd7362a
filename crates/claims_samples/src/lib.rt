// No code: the samples P1 to P12 of document 01 as one table.
#![tactic(auto)]
