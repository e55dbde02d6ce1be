// Shelf files: writing and reading undo each other, and one changed byte never passes; the claim and its proof, and no code.
#![tactic(auto)]
