// The fold checks, query by query and from the top level down.
ghost use Rattle.std.specs.Prelude.{◌≡◌, ◌<◌};
ghost use Rattle.algebra.specs.WordLists.{elements};
ghost use Rattle.basefold.specs.Checks.{first_failure, places as places_of, fold_holds, folds_at, folds_from};
ghost use Rattle.job.specs.Limits.{block_size};
ghost use Rattle.residue.specs.Elements.{F};
ghost use Rattle.residue.specs.Chosen.{chosen};
ghost use Rattle.verdict.specs.Verdicts.{found};
ghost use Rattle.walks.specs.Steps.{PlaceBelow, QueryPlaces};
ghost use Rattle.base_spread.specs.LentRows.{lent_rows};
ghost use Rattle.base_walks.specs.Steps.{RowsInput};

use crate::{Opened, levels};
use base_spread::RowCode;
use residue::{Field, Residue};
use verdict::Failure;
use walks::folds;

// The check of a level at a place.
pub fn fold_holds(code: &RowCode, opened: &Opened, level: u32, u: usize) -> bool
    requires { (RowsInput (chosen code.now.field) opened.now.depth code.now.low code.now.k code.now.n code.now.g.now code.now.t.now code.now.t2.now opened.now.block.now opened.now.r.now opened.now.opening.now) × (level < opened.now.depth) × (u < block_size code.now.n level) }
    ensures { result ≡ fold_holds (F (chosen code.now.field)) code.now.low (lent_rows (chosen code.now.field) code.now.k code.now.n code.now.g.now code.now.t.now code.now.t2.now) (elements (chosen code.now.field) opened.now.block.now) (elements (chosen code.now.field) opened.now.r.now) (elements (chosen code.now.field) opened.now.opening.now) level u }
{
    let Opened {
        depth,
        block,
        r,
        opening,
    } = *opened;
    let RowCode {
        n,
        t,
        t2,
        field,
        ..
    } = *code;
    let upper = levels::level_block(code, depth, level + 1, block, opening);
    let lower = levels::level_block(code, depth, level, block, opening);
    let at = levels::diagonals_len(level, n) + u;
    let a = Residue::new(r[level as usize], field);
    let first = Residue::new(t[at], field);
    let second = Residue::new(t2[at], field);
    folds::fold_at(a, first, second, u, upper, lower, field)
}

// The query at position q, whose place is u, through all levels.
pub fn walk(code: &RowCode, opened: &Opened, q: u32, u: usize) -> Result<(), Failure>
    requires { (RowsInput (chosen code.now.field) opened.now.depth code.now.low code.now.k code.now.n code.now.g.now code.now.t.now code.now.t2.now opened.now.block.now opened.now.r.now opened.now.opening.now) × (PlaceBelow code.now.n opened.now.depth u) }
    ensures { found result ≡ first_failure (folds_at (F (chosen code.now.field)) code.now.low (lent_rows (chosen code.now.field) code.now.k code.now.n code.now.g.now code.now.t.now code.now.t2.now) (elements (chosen code.now.field) opened.now.block.now) (elements (chosen code.now.field) opened.now.r.now) (elements (chosen code.now.field) opened.now.opening.now) q (places_of code.now.n opened.now.depth u)) }
{
    let mut at = u;
    for i in (0..opened.depth).rev() {
        if !fold_holds(code, opened, i, at) {
            return Err(Failure::Fold(q, i));
        }
        at = levels::next(i, code.n, at);
    }
    Ok(())
}

pub fn folds_rows(code: &RowCode, opened: &Opened, queries: &[u32]) -> Result<(), Failure>
    requires { (RowsInput (chosen code.now.field) opened.now.depth code.now.low code.now.k code.now.n code.now.g.now code.now.t.now code.now.t2.now opened.now.block.now opened.now.r.now opened.now.opening.now) × (QueryPlaces code.now.n opened.now.depth queries.now) }
    ensures { found result ≡ first_failure (folds_from (F (chosen code.now.field)) code.now.low (lent_rows (chosen code.now.field) code.now.k code.now.n code.now.g.now code.now.t.now code.now.t2.now) (elements (chosen code.now.field) opened.now.block.now) (elements (chosen code.now.field) opened.now.r.now) (elements (chosen code.now.field) opened.now.opening.now) 0 queries.now) }
{
    for (q, u) in queries.iter().enumerate() {
        let (q, u) = (q as u32, *u as usize);
        walk(code, opened, q, u)?;
    }
    Ok(())
}
