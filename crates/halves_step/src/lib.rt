// The two parts of a step that compares a block with a codeword: the codeword of the message's right half is written, and peeled off the block.
#![tactic(auto)]

pub mod peel;
mod place;
pub mod right;
