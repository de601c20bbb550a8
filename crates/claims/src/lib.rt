// The sums, from the top one down, each with the claim that the one above leaves.
#![tactic(auto)]

pub mod sums;
