// What C and Rust are told: answers as numbers, and the field that a call names.
#![tactic(auto)]

pub mod answer;
pub mod field;
pub mod reading;
pub mod verifying;
