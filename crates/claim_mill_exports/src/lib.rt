// What a mill learns, over the exports of `logic_core`: the claim and its proof, and no code.
#![tactic(auto)]
