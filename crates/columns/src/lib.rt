// One column of a block compared with the levels of the code over its base words. The columns of a codeword are independent of each other, so each is
// compared by itself.
#![tactic(auto)]

mod column;
pub mod lift;
