// No code: the members of a formula by set algebra, and what its layer words and walks have of them.
#![tactic(auto)]
