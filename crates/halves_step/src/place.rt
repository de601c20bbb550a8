// One place of a block with the codeword of the right half of its message.
ghost use Rattle.std.specs.Prelude.{◌≡◌, eqb};
ghost use Rattle.residue.specs.Chosen.{chosen};
ghost use Rattle.residue.specs.Elements.{less_product, sum_product};
ghost use Rattle.halves_step.specs.Steps.{PlaceLow};

use residue::Field;
use words::entry;

// The word of the left half's codeword, and whether the block's second word follows from it.
#[derive(Clone, Copy, Debug, PartialEq, Eq)]
pub struct Peel {
    pub left: u32,
    pub same: bool,
}

fn peel_in(u: u32, v: u32, t: u32, t2: u32, r: u32, field: Field) -> Peel
    requires { PlaceLow (chosen field) u t t2 r }
    ensures { (result.left ≡ less_product (chosen field) u t r) × (result.same ≡ eqb (sum_product (chosen field) result.left t2 r) v) }
{
    let left = entry::minus_product(u, t, r, field);
    let second = entry::plus_product(left, t2, r, field);
    Peel {
        left,
        same: second == v,
    }
}

// For each field by itself, so that a loop over places asks for the field once.
pub fn peel_at(u: u32, v: u32, t: u32, t2: u32, r: u32, field: Field) -> Peel
    requires { PlaceLow (chosen field) u t t2 r }
    ensures { (result.left ≡ less_product (chosen field) u t r) × (result.same ≡ eqb (sum_product (chosen field) result.left t2 r) v) }
{
    match field {
        Field::First => peel_in(u, v, t, t2, r, Field::First),
        Field::Second => peel_in(u, v, t, t2, r, Field::Second),
    }
}
