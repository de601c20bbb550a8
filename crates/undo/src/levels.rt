// The levels of one column undone, in place. The inverses of the differences stand behind it in the same slice.
ghost use Rattle.std.specs.Prelude.{◌≡◌, ◌<◌, ◌≤◌};
ghost use Rattle.residue.specs.Chosen.{chosen};
ghost use Rattle.job.specs.Limits.{max_depth};
ghost use Rattle.undo.specs.Steps.{longest_base, LevelLent, uncrossed, ColumnHalfIs, ColumnLent, ColumnUndone};

use residue::{Field, Residue};
use words::entry;

// At each place the line through the words u and v of the two halves: its value at 0 instead of u, its slope instead of v.
fn uncross(n: usize, a: usize, c: usize, t: &[u32], w: &mut [u32], field: Field)
    requires { LevelLent (chosen field) n a c t.now w.old }
    ensures { w.new ≡ uncrossed (chosen field) n a c t.now w.old }
{
    let mut p = 0;
    for i in 0..n {
        let k = n + i;
        let q = a + i;
        let u = w[i];
        let r = entry::times_gap(w[q], u, w[k], field);
        w[i] = entry::minus_product(u, t[p], r, field);
        w[k] = r;
        p += c;
    }
}

// Half a column of a level, where the level's diagonal begins, and how many inverses stand before its own.
#[derive(Clone, Copy, Debug, PartialEq, Eq)]
pub struct ColumnHalf {
    pub half: usize,
    pub skip: usize,
    pub off: usize,
    pub low: u32,
}

fn column_half(depth: u32, c: usize) -> ColumnHalf
    requires { (0 < depth) × (depth ≤ max_depth) × (c ≤ longest_base) }
    ensures { ColumnHalfIs depth c result.half result.skip result.off result.low }
{
    let low = depth - 1;
    let half = job::message_len(low);
    let skip = half - 1;
    ColumnHalf {
        half,
        skip,
        off: c * skip,
        low,
    }
}

// x is the inverse of the base row's first word; the inverses of the differences begin at a.
pub fn undo(depth: u32, a: usize, x: Residue, c: usize, t: &[u32], w: &mut [u32], field: Field)
    requires { ColumnLent (chosen field) depth a x c t.now w.old }
    ensures { ColumnUndone (chosen field) depth a x c t.now w.old w.new }
{
    if depth == 0 {
        w[0] = x.times(Residue::new(w[0], field), field).word();
        return;
    }
    let p = column_half(depth, c);
    let half = p.half;
    let off = p.off;
    let low = p.low;
    let q = a + p.skip;
    let b = a - half;
    uncross(half, q, c, &t[off..], w, field);
    undo(low, a, x, c, t, w, field);
    undo(low, b, x, c, t, &mut w[half..], field);
}
