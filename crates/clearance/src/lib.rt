// Clearances: slices of them turned into residues and back.
#![tactic(auto)]

mod clearance;
pub mod slices;

// The largest distance, in micrometres, and the largest overlap: in the first field, and in the second.
pub const MAX_CLEARANCE: i32 = 1073741823;

pub const SECOND_MAX_CLEARANCE: i32 = 1006632960;
