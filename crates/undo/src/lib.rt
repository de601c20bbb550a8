// One column of a block, with the levels of the code undone.
#![tactic(auto)]

pub mod column;
pub mod levels;
