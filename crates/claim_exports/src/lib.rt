// Demand 3 and what appends store, over the exports of `logic_core`: the claims and their proofs, and no code.
#![tactic(auto)]
