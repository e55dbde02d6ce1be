// Document 01's rules, as definitions in specs/ and laws about them in proofs/. No code.
#![tactic(auto)]
