// Bursts that meet, over the calls and the exports: the claim and its proof, and no code.
#![tactic(auto)]
