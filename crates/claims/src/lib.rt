// No code: the theorems that span the crates stand in specs/ and proofs/.
#![tactic(auto)]
