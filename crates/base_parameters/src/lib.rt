// What is judged of the parameter record, of base matrix and diagonals.
#![tactic(auto)]

pub mod judging;
