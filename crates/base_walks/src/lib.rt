// The checks of the blocks, over base messages of 1, 2 or 4 words: block 0 against v and the base matrix, then each query on its way down the levels.
#![tactic(auto)]

ghost use Rattle.std.specs.Prelude.{◌≡◌, ◌++◌};
ghost use Rattle.algebra.specs.WordLists.{elements};
ghost use Rattle.basefold.specs.Checks.{first_failure, bases as base_checks, folds as fold_checks};
ghost use Rattle.residue.specs.Elements.{F};
ghost use Rattle.residue.specs.Chosen.{chosen};
ghost use Rattle.verdict.specs.Verdicts.{found};
ghost use Rattle.walks.specs.Steps.{QueryPlaces};
ghost use Rattle.base_spread.specs.LentRows.{lent_rows};
ghost use Rattle.base_walks.specs.Steps.{RowsInput};

use base_checks::base;
use base_spread::RowCode;
use residue::Field;
use verdict::Failure;

pub mod folds;
pub mod levels;

// What a verifier is lent of an opening for `depth` levels: the committed block, the challenges and the opening's words. The block of a level lies in the first or
// the last of them, so these two have one lifetime.
#[derive(Clone, Copy)]
pub struct Opened<'a, 'r> {
    pub depth: u32,
    pub block: &'a [u32],
    pub r: &'r [u32],
    pub opening: &'a [u32],
}

// The base checks, then the fold checks.
pub fn blocks_rows(code: &RowCode, opened: &Opened, queries: &[u32]) -> Result<(), Failure>
    requires { (RowsInput (chosen code.now.field) opened.now.depth code.now.low code.now.k code.now.n code.now.g.now code.now.t.now code.now.t2.now opened.now.block.now opened.now.r.now opened.now.opening.now) × (QueryPlaces code.now.n opened.now.depth queries.now) }
    ensures { found result ≡ first_failure (base_checks (F (chosen code.now.field)) code.now.low (lent_rows (chosen code.now.field) code.now.k code.now.n code.now.g.now code.now.t.now code.now.t2.now) (elements (chosen code.now.field) opened.now.block.now) (elements (chosen code.now.field) opened.now.r.now) (elements (chosen code.now.field) opened.now.opening.now) ++ fold_checks (F (chosen code.now.field)) code.now.low (lent_rows (chosen code.now.field) code.now.k code.now.n code.now.g.now code.now.t.now code.now.t2.now) (elements (chosen code.now.field) opened.now.block.now) (elements (chosen code.now.field) opened.now.r.now) (elements (chosen code.now.field) opened.now.opening.now) queries.now) }
{
    let Opened {
        depth,
        block,
        opening,
        ..
    } = *opened;
    let RowCode { k, n, g, field, .. } = *code;
    let v = levels::final_words(depth, k, opening);
    let bottom = levels::level_block(code, depth, 0, block, opening);
    base::bases(n, v, g, bottom, field)?;
    folds::folds_rows(code, opened, queries)
}
