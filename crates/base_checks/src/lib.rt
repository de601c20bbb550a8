// The base checks and the final check, over base messages of 1, 2 or 4 words.
#![tactic(auto)]

pub mod base;
pub mod last;
