// Decoding: the message of a codeword.
#![tactic(auto)]

pub mod decode;
