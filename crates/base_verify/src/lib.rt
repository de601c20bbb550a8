// All checks in their order, over base messages of 1, 2 or 4 words.
#![tactic(auto)]

ghost use Rattle.std.specs.Prelude.{◌≡◌};
ghost use Rattle.algebra.specs.WordLists.{elements};
ghost use Rattle.basefold.specs.Checks.{first_failure, checks as all_checks};
ghost use Rattle.residue.specs.Elements.{F, elem};
ghost use Rattle.residue.specs.Chosen.{chosen};
ghost use Rattle.verdict.specs.Verdicts.{found};
ghost use Rattle.base_spread.specs.LentRows.{lent_rows};
ghost use Rattle.base_verify.specs.Steps.{ChecksInput};

use base_spread::RowCode;
use base_walks::Opened;
use residue::{Field, Residue};
use verdict::Failure;

pub mod claimed;

// The base matrix has k rows of n words, and `low` variables are inside a base message: k is 2^low.
pub fn checks_rows(
    code: &RowCode,
    opened: &Opened,
    z: &[u32],
    y: Residue,
    queries: &[u32],
) -> Result<(), Failure>
    requires { ChecksInput (chosen code.now.field) opened.now.depth code.now.low code.now.k code.now.n code.now.g.now code.now.t.now code.now.t2.now opened.now.block.now z.now y opened.now.r.now queries.now opened.now.opening.now }
    ensures { found result ≡ first_failure (all_checks (F (chosen code.now.field)) code.now.low (lent_rows (chosen code.now.field) code.now.k code.now.n code.now.g.now code.now.t.now code.now.t2.now) (elements (chosen code.now.field) opened.now.block.now) (elements (chosen code.now.field) z.now) (elem (chosen code.now.field) y) (elements (chosen code.now.field) opened.now.r.now) queries.now (elements (chosen code.now.field) opened.now.opening.now)) }
{
    let Opened {
        depth,
        r,
        opening,
        ..
    } = *opened;
    claimed::claims_rows(code, depth, z, y, r, opening)?;
    base_walks::blocks_rows(code, opened, queries)
}
