// The ten functions for C and Rust: the archive libtvarchula.a. Each export calls the function of that name of the library tvarchula, and
// promises the same.
#![tactic(auto)]

pub mod coding;
pub mod filling;
pub mod ground;
pub mod opening;
