// What C and Rust call: one function for each job.
#![tactic(auto)]

pub mod coding;
pub mod filling;
pub mod ground;
pub mod opening;
