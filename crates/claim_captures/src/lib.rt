// Captures with right levels, however they were made: what their questions answer, and when two look alike; the claim and its proof, and no code.
#![tactic(auto)]
