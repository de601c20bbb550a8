// A round's polynomial, by its values at 0, 1, 2.
ghost use Rattle.std.specs.Prelude.{◌≡◌, [], ◌∷◌, length};
ghost use Rattle.algebra.specs.WordLists.{elements, to_words};
ghost use Rattle.residue.specs.Elements.{word, elem, Low};
ghost use Rattle.residue.specs.Chosen.{chosen};
ghost use Rattle.steps.specs.Steps.{round_of, values, weighed_line, HalvesInput, HalfValues, SendInput};

use crate::weigh;
use residue::{Field, Residue};

// The value at x: w times eq of z and x, times the line through left at 0 and left + right at 1.
fn value_at(
    w: Residue,
    z: Residue,
    left: Residue,
    right: Residue,
    x: Residue,
    field: Field,
) -> Residue
    requires { Low (chosen field) w × Low (chosen field) z × Low (chosen field) left × Low (chosen field) right × Low (chosen field) x }
    ensures { result.0 ≡ word (chosen field) (weighed_line (chosen field) (elem (chosen field) w) (elem (chosen field) z) (elem (chosen field) left) (elem (chosen field) right) (elem (chosen field) x)) }
{
    weigh::weigh(w, z, x, field).times(left.plus_product(x, right, field), field)
}

#[derive(Clone, Copy)]
pub struct Halves {
    pub left: Residue,
    pub right: Residue,
}

// The values of both halves of m at the variables below the top one.
fn half_values(z: &[u32], m: &[u32], field: Field) -> Halves
    requires { HalvesInput (chosen field) z.now m.now }
    ensures { HalfValues (chosen field) (elements (chosen field) z.now) (elements (chosen field) m.now) result.left result.right }
{
    let top = z.len() - 1;
    let half = m.len() / 2;
    Halves {
        left: polynomial::value(&m[..half], &z[..top], field),
        right: polynomial::value(&m[half..], &z[..top], field),
    }
}

fn write_three(a: Residue, b: Residue, c: Residue, out: &mut [u32])
    requires { length out.old ≡ 3 }
    ensures { out.new ≡ a.0 ∷ b.0 ∷ c.0 ∷ [] }
{
    out[0] = a.word();
    out[1] = b.word();
    out[2] = c.word();
}

// w times h of what is left, m, at its point z.
pub fn round_values(w: Residue, z: &[u32], m: &[u32], out: &mut [u32], field: Field)
    requires { SendInput (chosen field) w z.now m.now (length out.old) }
    ensures { out.new ≡ to_words (chosen field) (values (chosen field) (round_of (chosen field) (elem (chosen field) w) (elements (chosen field) m.now) (elements (chosen field) z.now))) }
{
    let Halves { left, right } = half_values(z, m, field);
    let top = Residue::new(z[z.len() - 1], field);
    let at_0 = value_at(w, top, left, right, Residue::ZERO, field);
    let at_1 = value_at(w, top, left, right, Residue::ONE, field);
    let at_2 = value_at(w, top, left, right, Residue::new(2, field), field);
    write_three(at_0, at_1, at_2, out);
}
