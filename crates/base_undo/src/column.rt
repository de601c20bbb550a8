// One column of a block, with its levels undone.
ghost use Rattle.std.specs.Prelude.{◌≡◌, ◌+◌, ◌-◌, ◌^◌, ◌<◌, ◌≤◌, length, take, drop};
ghost use Rattle.residue.specs.Chosen.{chosen};
ghost use Rattle.inversion.specs.Inversion.{gap_inverses};
ghost use Rattle.base_undo.specs.Steps.{ColumnInput, BlockInput, RowsInput, undone_words, ColumnsUndone};

use base_spread::RowCode;
use residue::{Field, Residue};
use undo::{column, levels};

// The first column of the block undone, in front of work. The inverses of its differences stand behind it.
fn undo_first(
    depth: u32,
    n: usize,
    t: &[u32],
    t2: &[u32],
    block: &[u32],
    work: &mut [u32],
    field: Field,
)
    requires { ColumnInput (chosen field) depth n t.now t2.now block.now (length work.old) × (take (2 ^ depth - 1) (drop (2 ^ depth) work.old) ≡ gap_inverses (chosen field) n (2 ^ depth - 1) t.now t2.now) }
    ensures { take (2 ^ depth) work.new ≡ undone_words (chosen field) depth n 0 t.now t2.now block.now }
{
    let q = job::message_len(depth);
    let e = q + (q - 1);
    column::gather(n, block, &mut work[..q]);
    levels::undo(depth, q, Residue::ONE, n, t, &mut work[..e], field);
}

// Column b of the block undone, in front of work, with the inverses of its differences behind it.
fn undo_column(
    depth: u32,
    b: usize,
    n: usize,
    t: &[u32],
    t2: &[u32],
    block: &[u32],
    work: &mut [u32],
    field: Field,
)
    requires { BlockInput (chosen field) depth n t.now t2.now block.now × (b < n) × (2 ^ depth + 2 ^ depth ≤ length work.old) × (take (2 ^ depth - 1) (drop (2 ^ depth) work.old) ≡ gap_inverses (chosen field) n (2 ^ depth - 1) (drop b t.now) (drop b t2.now)) }
    ensures { take (2 ^ depth) work.new ≡ undone_words (chosen field) depth n b t.now t2.now block.now }
{
    // At depth 0 there are no diagonals to begin in.
    let s = b.min(t.len());
    undo_first(depth, n, &t[s..], &t2[s..], &block[b..], work, field);
}

// The first k columns undone, one behind the other. Each stands before its inverses, and overwrites those of the column before it.
pub fn undo_columns(code: &RowCode, depth: u32, block: &[u32], work: &mut [u32])
    requires { RowsInput (chosen code.now.field) depth code.now.k code.now.n code.now.t.now code.now.t2.now block.now (length work.old) }
    ensures { ColumnsUndone (chosen code.now.field) depth code.now.k code.now.n code.now.t.now code.now.t2.now block.now work.new }
{
    let RowCode {
        k,
        n,
        t,
        t2,
        field,
        ..
    } = *code;
    let q = job::message_len(depth);
    base_inverses::invert_columns(k, n, q, t, t2, work, field);
    let mut s = (k - 1) * q;
    for b in 0..k {
        let e = s + q + q;
        undo_column(depth, b, n, t, t2, block, &mut work[s..e], field);
        s += q;
    }
}
