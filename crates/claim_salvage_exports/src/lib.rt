// Files off a bad disk over the exports: the claim and its proof, and no code.
#![tactic(auto)]
