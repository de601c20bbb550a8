// The value of the multilinear polynomial whose coefficients a message holds.
#![tactic(auto)]

ghost use Rattle.std.specs.Prelude.{◌≡◌};
ghost use Rattle.algebra.specs.WordLists.{elements};
ghost use Rattle.multilinear.specs.Polynomial.{poly};
ghost use Rattle.residue.specs.Elements.{K, word};
ghost use Rattle.residue.specs.Chosen.{chosen};
ghost use Rattle.polynomial.specs.Lent.{EvaluateInput};
ghost use Rattle.polynomial.specs.Monomials.{Monomials};

use residue::{Field, Residue};

pub mod eq;
mod monomials;
mod parts;

// By the top variable: the value of the left half plus that variable times the value of the right half. When at most one is left beside the
// low ones, it is made of sums of coefficients times monomials, which w has.
fn by_top(w: &[u32; 64], m: &[u32], z: &[u32], field: Field) -> Residue
    requires { EvaluateInput (chosen field) m.now z.now × Monomials (chosen field) w.now z.now }
    ensures { result.0 ≡ word (chosen field) (poly (K (chosen field)) (elements (chosen field) m.now) (elements (chosen field) z.now)) }
{
    let d = z.len();
    if d <= monomials::LOW + 1 {
        return parts::value_of(w, m, z, field);
    }
    let top = d - 1;
    let half = m.len() / 2;
    let l = by_top(w, &m[..half], &z[..top], field);
    let r = by_top(w, &m[half..], &z[..top], field);
    l.plus_product(Residue::new(z[top], field), r, field)
}

// The monomials of the low variables are made once, for all parts of the message.
pub fn value(m: &[u32], z: &[u32], field: Field) -> Residue
    requires { EvaluateInput (chosen field) m.now z.now }
    ensures { result.0 ≡ word (chosen field) (poly (K (chosen field)) (elements (chosen field) m.now) (elements (chosen field) z.now)) }
{
    let mut w = [0u32; 64];
    monomials::fill(&mut w, z, field);
    by_top(&w, m, z, field)
}
