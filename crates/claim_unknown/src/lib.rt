// Searches across unknown stretches: what certain and possible changes are found, when two captures look alike with them, and what they tell of a salvaged one; the claim and
// its proof, and no code.
#![tactic(auto)]
