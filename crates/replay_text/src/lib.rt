// Lists of recorded answers: their lines, the numbers of a line, and an answer held against the recorded one.
// crates/replay/data/README.md defines their format.
#![tactic(auto)]

pub mod answers;
pub mod digests;
pub mod numbers;
pub mod operations;
pub mod text;
