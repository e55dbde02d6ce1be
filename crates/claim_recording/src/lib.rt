// Demand 3, the theorem about whole lists of pushes. specs/Claim.antt says it, proofs/ proves it. No code.
#![tactic(auto)]
