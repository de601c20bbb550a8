// The check of a fold at one place.
#![tactic(auto)]

pub mod folds;
