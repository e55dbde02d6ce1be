// CR 1, what a mill's reader learns of a recording. specs/Claim.antt says it, proofs/ proves it. No code.
#![tactic(auto)]
