// Files off a bad disk: what is salvaged of them, and what stays unknown; the claim and its proof, and no code.
#![tactic(auto)]
