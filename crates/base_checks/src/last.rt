// The final check: the polynomial of v at the low variables, times eq of the others and the challenges, is the last claim. By this product no sum
// over corners is made.
ghost use Rattle.std.specs.Prelude.{◌≡◌, [], ◌∷◌};
ghost use Rattle.basefold.specs.Checks.{first_failure};
ghost use Rattle.residue.specs.Chosen.{chosen};
ghost use Rattle.verdict.specs.Verdicts.{found};
ghost use Rattle.base_checks.specs.Steps.{last_at, LastLent};

use polynomial::eq;
use residue::{Field, Residue};
use verdict::Failure;

pub fn last(claim: Residue, v: &[u32], z: &[u32], r: &[u32], field: Field) -> Result<(), Failure>
    requires { LastLent (chosen field) claim v.now z.now r.now }
    ensures { found result ≡ first_failure (last_at (chosen field) claim v.now z.now r.now ∷ []) }
{
    let n = z.len();
    let high = r.len();
    let low = n - high;
    let f = polynomial::value(v, &z[0..low], field);
    let e = eq::eq(&z[low..n], r, field);
    let product = f.times(e, field);
    if !product.same(claim) {
        return Err(Failure::Final);
    }
    Ok(())
}
