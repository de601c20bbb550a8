// The transform between a table and its coefficients in place, one pass a variable.
#![tactic(auto)]

ghost use Rattle.std.specs.Prelude.{◌≡◌, ◌+◌, ◌*◌, ◌^◌, ◌<◌, length};
ghost use Rattle.algebra.specs.WordLists.{Low, elements, to_words};
ghost use Rattle.residue.specs.Elements.{P, word, el};
ghost use Rattle.residue.specs.Chosen.{chosen};
ghost use Rattle.transform.specs.Passes.{across, crossed, blocks, passes};

use residue::Field;
use words::entry;

#[derive(Clone, Copy, Debug, PartialEq, Eq)]
pub enum Way {
    ToCoefficients,
    ToTable,
}

// What the word y of a right half becomes, x being that of the left half.
fn step(way: Way, x: u32, y: u32, field: Field) -> u32
    requires { (x < P (chosen field)) × (y < P (chosen field)) }
    ensures { result ≡ word (chosen field) (across (chosen field) way (el (chosen field) x) (el (chosen field) y)) }
{
    match way {
        Way::ToCoefficients => entry::minus(y, x, field),
        Way::ToTable => entry::plus(x, y, field),
    }
}

// One block: its right half changes by its left half.
fn cross(way: Way, half: usize, s: &mut [u32], field: Field)
    requires { (length s.old ≡ half + half) × Low (P (chosen field)) s.old }
    ensures { s.new ≡ to_words (chosen field) (crossed (across (chosen field) way) half (elements (chosen field) s.old)) }
{
    for j in 0..half {
        let k = half + j;
        let y = step(way, s[j], s[k], field);
        s[k] = y;
    }
}

// One variable: every block.
fn pass(way: Way, half: usize, count: usize, s: &mut [u32], field: Field)
    requires { (length s.old ≡ count * (half + half)) × Low (P (chosen field)) s.old }
    ensures { s.new ≡ to_words (chosen field) (blocks (crossed (across (chosen field) way) half) (half + half) count (elements (chosen field) s.old)) }
{
    let mut at = 0;
    for i in 0..count {
        let end = at + half + half;
        cross(way, half, &mut s[at..end], field);
        at = end;
    }
}

// The same, with the field and the shortest halves as constants: the compiler makes loops for each field, and unrolls those blocks.
fn sweep(way: Way, half: usize, count: usize, s: &mut [u32], field: Field)
    requires { (length s.old ≡ count * (half + half)) × Low (P (chosen field)) s.old }
    ensures { s.new ≡ to_words (chosen field) (blocks (crossed (across (chosen field) way) half) (half + half) count (elements (chosen field) s.old)) }
{
    match field {
        Field::First => match half {
            1 => pass(way, 1, count, s, Field::First),
            2 => pass(way, 2, count, s, Field::First),
            4 => pass(way, 4, count, s, Field::First),
            8 => pass(way, 8, count, s, Field::First),
            16 => pass(way, 16, count, s, Field::First),
            _ => pass(way, half, count, s, Field::First),
        },
        Field::Second => match half {
            1 => pass(way, 1, count, s, Field::Second),
            2 => pass(way, 2, count, s, Field::Second),
            4 => pass(way, 4, count, s, Field::Second),
            8 => pass(way, 8, count, s, Field::Second),
            16 => pass(way, 16, count, s, Field::Second),
            _ => pass(way, half, count, s, Field::Second),
        },
    }
}

// All variables, from the lowest.
pub fn transform(way: Way, depth: u32, s: &mut [u32], field: Field)
    requires { (length s.old ≡ 2 ^ depth) × Low (P (chosen field)) s.old }
    ensures { s.new ≡ to_words (chosen field) (passes (across (chosen field) way) depth (elements (chosen field) s.old)) }
{
    let mut half = 1;
    let mut count = s.len();
    for level in 0..depth {
        count /= 2;
        sweep(way, half, count, s, field);
        half *= 2;
    }
}
