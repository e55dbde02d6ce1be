// Searches across unknown stretches over the exports; the claim and its proof, and no code.
#![tactic(auto)]
