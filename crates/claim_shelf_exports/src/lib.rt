// Shelf files over the exports: lc_write and lc_read undo each other, and one changed byte never passes; the claim and its proof, and no code.
#![tactic(auto)]
