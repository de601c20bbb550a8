// eq of two points: the product, over the variables, of eq in each of them.
ghost use Rattle.std.specs.Prelude.{◌≡◌, ◌<◌, length, get_or};
ghost use Rattle.algebra.specs.WordLists.{Low as LowWords, elements};
ghost use Rattle.multilinear.specs.Corners.{eq as product};
ghost use Rattle.residue.specs.Elements.{P, K, el, word, elem, Low};
ghost use Rattle.residue.specs.Chosen.{chosen};
ghost use Rattle.polynomial.specs.Eq.{factor as factor_of};

use residue::{Field, Residue};

// z x + (1 - z)(1 - x)
pub fn factor(z: Residue, x: Residue, field: Field) -> Residue
    requires { Low (chosen field) z × Low (chosen field) x }
    ensures { result.0 ≡ word (chosen field) (factor_of (chosen field) (elem (chosen field) z) (elem (chosen field) x)) }
{
    let both = z.times(x, field);
    let not_z = Residue::ONE.minus(z, field);
    let not_x = Residue::ONE.minus(x, field);
    both.plus_product(not_z, not_x, field)
}

// The factor of variable i.
fn factor_at(i: usize, z: &[u32], x: &[u32], field: Field) -> Residue
    requires { (LowWords (P (chosen field)) z.now) × (LowWords (P (chosen field)) x.now) × (i < length z.now) × (i < length x.now) }
    ensures { result.0 ≡ word (chosen field) (factor_of (chosen field) (el (chosen field) (get_or z.now i 0)) (el (chosen field) (get_or x.now i 0))) }
{
    factor(Residue::new(z[i], field), Residue::new(x[i], field), field)
}

pub fn eq(z: &[u32], x: &[u32], field: Field) -> Residue
    requires { (LowWords (P (chosen field)) z.now) × (LowWords (P (chosen field)) x.now) × (length x.now ≡ length z.now) }
    ensures { result.0 ≡ word (chosen field) (product (K (chosen field)) (elements (chosen field) z.now) (elements (chosen field) x.now)) }
{
    let mut e = Residue::ONE;
    for i in 0..z.len() {
        e = e.times(factor_at(i, z, x, field), field);
    }
    e
}
