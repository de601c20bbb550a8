// The levels of the code over one column, in place.
ghost use Rattle.std.specs.Prelude.{◌≡◌, ◌^◌, ◌<◌, ◌≤◌, length};
ghost use Rattle.algebra.specs.WordLists.{elements, to_words};
ghost use Rattle.algebra.specs.Tests.{all_same};
ghost use Rattle.foldable.specs.Every.{every};
ghost use Rattle.foldable.specs.Lift.{lift as lifted};
ghost use Rattle.job.specs.Limits.{max_depth, block_size};
ghost use Rattle.residue.specs.Elements.{F};
ghost use Rattle.residue.specs.Chosen.{chosen};
ghost use Rattle.undo.specs.Steps.{longest_base};
ghost use Rattle.columns.specs.Steps.{ColumnHalfIs, ColumnLent, lent_column};

use crate::column;
use residue::Field;

// Half a column of a level, and where column j of the level's diagonal begins.
#[derive(Clone, Copy, Debug, PartialEq, Eq)]
pub struct ColumnHalf {
    pub half: usize,
    pub off: usize,
    pub low: u32,
}

fn column_half(depth: u32, j: usize, c: usize) -> ColumnHalf
    requires { (0 < depth) × (depth ≤ max_depth) × (j < c) × (c ≤ longest_base) }
    ensures { ColumnHalfIs depth j c result.half result.off result.low }
{
    let low = depth - 1;
    let half = job::message_len(low);
    ColumnHalf {
        half,
        off: j + c * (half - 1),
        low,
    }
}

fn lift(depth: u32, j: usize, g: &[u32], t: &[u32], t2: &[u32], w: &mut [u32], field: Field)
    requires { ColumnLent (chosen field) depth j g.now t.now t2.now w.old }
    ensures { w.new ≡ to_words (chosen field) (lifted (F (chosen field)) (lent_column (chosen field) j g.now t.now t2.now) depth (elements (chosen field) w.old)) }
{
    if depth == 0 {
        return;
    }
    let p = column_half(depth, j, g.len());
    let half = p.half;
    let low = p.low;
    lift(low, j, g, t, t2, &mut w[..half], field);
    lift(low, j, g, t, t2, &mut w[half..], field);
    column::cross(half, p.off, g.len(), t, t2, w, field);
}

// Whether w, with the levels over it, is column j of the block.
pub fn lifts_to(
    depth: u32,
    j: usize,
    g: &[u32],
    t: &[u32],
    t2: &[u32],
    block: &[u32],
    w: &mut [u32],
    field: Field,
) -> bool
    requires { (ColumnLent (chosen field) depth j g.now t.now t2.now w.old) × (length block.now ≡ block_size (length g.now) depth) }
    ensures { result ≡ all_same (to_words (chosen field) (lifted (F (chosen field)) (lent_column (chosen field) j g.now t.now t2.now) depth (elements (chosen field) w.old))) (every 0 (length g.now) j (2 ^ depth) block.now) }
{
    lift(depth, j, g, t, t2, w, field);
    column::same_places(j, g.len(), block, w)
}
