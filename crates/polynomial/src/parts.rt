// The value of a message of at most one variable more than the low ones.
ghost use Rattle.std.specs.Prelude.{◌≡◌, ◌≤◌, length};
ghost use Rattle.algebra.specs.WordLists.{elements};
ghost use Rattle.multilinear.specs.Polynomial.{poly};
ghost use Rattle.residue.specs.Elements.{K, word};
ghost use Rattle.residue.specs.Chosen.{chosen};
ghost use Rattle.polynomial.specs.Lent.{EvaluateInput};
ghost use Rattle.polynomial.specs.Monomials.{Monomials};

use crate::monomials;
use residue::{Field, Residue, sums};

// Sums of coefficients times the monomials in w: one, or one of each half, for which no function has to call itself.
pub fn value_of(w: &[u32; 64], m: &[u32], z: &[u32], field: Field) -> Residue
    requires { EvaluateInput (chosen field) m.now z.now × Monomials (chosen field) w.now z.now × (length z.now ≤ 7) }
    ensures { result.0 ≡ word (chosen field) (poly (K (chosen field)) (elements (chosen field) m.now) (elements (chosen field) z.now)) }
{
    let d = z.len();
    if d <= monomials::LOW {
        return sums::of_products(m, w, field);
    }
    let top = d - 1;
    let half = m.len() / 2;
    let l = sums::of_products(&m[..half], w, field);
    let r = sums::of_products(&m[half..], w, field);
    l.plus_product(Residue::new(z[top], field), r, field)
}
