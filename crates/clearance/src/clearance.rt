// One clearance to a word, and back. Loops over slices call these with numbers, not with the field, so that no turn asks for it.
ghost use Rattle.std.specs.Prelude.{◌≡◌, ◌<◌, ◌≤◌, pos, nat_abs};
ghost use Rattle.residue.specs.Chosen.{chosen};
ghost use Rattle.clearance.specs.Clearances.{max_clearance, between, residue_by, clearance_by};

use crate::{MAX_CLEARANCE, SECOND_MAX_CLEARANCE};
use residue::Field;

pub fn max_clearance(field: Field) -> i32
    ensures { result ≡ pos (max_clearance (chosen field)) }
{
    match field {
        Field::First => MAX_CLEARANCE,
        Field::Second => SECOND_MAX_CLEARANCE,
    }
}

pub fn in_range(x: i32, min: i32, max: i32) -> bool
    ensures { result ≡ between min max x }
{
    (min <= x) & (x <= max)
}

// p is the modulus; 2147483647 is the largest i32.
pub fn to_word(x: i32, p: u32) -> u32
    requires { (nat_abs x < p) × (p ≤ 2147483647) }
    ensures { result ≡ residue_by p x }
{
    if x < 0 { p - ((-x) as u32) } else { x as u32 }
}

// From border on a residue is an overlap.
pub fn to_clearance(w: u32, border: u32, p: u32) -> i32
    requires { (w < p) × (p ≤ 2147483647) }
    ensures { result ≡ clearance_by border p w }
{
    if w < border {
        w as i32
    } else {
        -((p - w) as i32)
    }
}
