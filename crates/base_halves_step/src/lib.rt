// The parts of a step that compares a block with a codeword of k base rows: the codeword of the message's right half is written, and the block of one base message
// is compared.
#![tactic(auto)]

pub mod base;
pub mod right;
