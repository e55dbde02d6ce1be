// The mathematics of the recorder: its ring, and one push, as definitions in specs/ and laws in proofs/. No code.
#![tactic(auto)]
