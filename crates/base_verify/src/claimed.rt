// The claims: the sums, and the final check of the last claim, for v of k words.
ghost use Rattle.std.specs.Prelude.{◌≡◌};
ghost use Rattle.algebra.specs.WordLists.{elements};
ghost use Rattle.basefold.specs.Checks.{first_failure, sums_from, sums as sum_checks};
ghost use Rattle.residue.specs.Elements.{F, elem};
ghost use Rattle.residue.specs.Chosen.{chosen};
ghost use Rattle.verdict.specs.Verdicts.{found};
ghost use Rattle.base_verify.specs.Steps.{ClaimsInput};

use base_checks::last;
use base_spread::RowCode;
use base_walks::levels;
use claims::sums;
use residue::{Field, Residue};
use verdict::Failure;

// The final check.
pub fn last_rows(
    code: &RowCode,
    depth: u32,
    claim: Residue,
    z: &[u32],
    r: &[u32],
    opening: &[u32],
) -> Result<(), Failure>
    requires { ClaimsInput (chosen code.now.field) depth code.now.low code.now.k claim z.now r.now opening.now }
    ensures { found result ≡ first_failure (sums_from (F (chosen code.now.field)) code.now.low (elements (chosen code.now.field) opening.now) (elements (chosen code.now.field) z.now) (elements (chosen code.now.field) r.now) 0 (elem (chosen code.now.field) claim)) }
{
    let RowCode { k, field, .. } = *code;
    let v = levels::final_words(depth, k, opening);
    last::last(claim, v, z, r, field)
}

pub fn claims_rows(
    code: &RowCode,
    depth: u32,
    z: &[u32],
    y: Residue,
    r: &[u32],
    opening: &[u32],
) -> Result<(), Failure>
    requires { ClaimsInput (chosen code.now.field) depth code.now.low code.now.k y z.now r.now opening.now }
    ensures { found result ≡ first_failure (sum_checks (F (chosen code.now.field)) code.now.low (elements (chosen code.now.field) opening.now) (elements (chosen code.now.field) z.now) (elements (chosen code.now.field) r.now) (elem (chosen code.now.field) y)) }
{
    let claim = sums::sums(depth, y, r, opening, code.field)?;
    last_rows(code, depth, claim, z, r, opening)
}
