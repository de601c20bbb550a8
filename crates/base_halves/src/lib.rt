// Whether a block is the codeword, of k base rows, of a message that stands in front of the work buffer, with the message left as it is.
#![tactic(auto)]

pub mod same;
