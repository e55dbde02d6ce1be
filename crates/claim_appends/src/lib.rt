// Captures that appends made: for every list of appends, what is stored and what is answered; the claim and its proof, and no code.
#![tactic(auto)]
