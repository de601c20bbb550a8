// The block of a level as the fold of the block above it, in the opening that holds both, one behind the other. Base messages have 2^low words.
#![tactic(auto)]

ghost use Rattle.std.specs.Prelude.{◌≡◌, length};
ghost use Rattle.residue.specs.Chosen.{chosen};
ghost use Rattle.algebra.specs.Lists.{put};
ghost use Rattle.basefold.specs.Layout.{block_at};
ghost use Rattle.base_descend.specs.RowDescending.{FoldBlockInput, folded_above};

use lines::behind;
use residue::{Field, Residue};

// The block of level i, by the challenge r_i, into its place. Of the base matrix one row is lent, for its length.
pub fn fold_block(
    depth: u32,
    low: u32,
    i: u32,
    g: &[u32],
    t: &[u32],
    t2: &[u32],
    r: &[u32],
    opening: &mut [u32],
    field: Field,
)
    requires { FoldBlockInput (chosen field) depth low i g.now t.now t2.now r.now opening.old }
    ensures { opening.new ≡ put (block_at (length g.now) low depth i) (folded_above (chosen field) depth low i (length g.now) t.now t2.now r.now opening.old) opening.old }
{
    let a = Residue::new(r[i as usize], field);
    let rows = job::message_len(i);
    let n = g.len() * rows;
    let off = g.len() * (rows - 1);
    let stop = off + n;
    let at = base_steps::block_at(depth, low, g.len(), i + 1);
    let end = at + 3 * n;
    behind::fold_behind(
        &t[off..stop],
        &t2[off..stop],
        a,
        &mut opening[at..end],
        field,
    );
}
