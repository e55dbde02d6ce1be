// The mathematics of looking alike to a viewer of chosen lines: definitions in specs/, both directions in proofs/. No code.
#![tactic(auto)]
