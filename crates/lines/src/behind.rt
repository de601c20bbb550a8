// The fold of a block, written behind the block in the same slice, as an opening holds its blocks.
ghost use Rattle.std.specs.Prelude.{◌≡◌};
ghost use Rattle.residue.specs.Elements.{Low};
ghost use Rattle.residue.specs.Chosen.{chosen};
ghost use Rattle.lines.specs.Behind.{FoldBehindLent, folded_behind};

use residue::{Field, Residue};

// The block in front of w has twice as many words as its diagonals, and what stands behind it as many as they: the fold comes there.
pub fn fold_behind(t: &[u32], t2: &[u32], challenge: Residue, w: &mut [u32], field: Field)
    requires { Low (chosen field) challenge × FoldBehindLent (chosen field) t.now t2.now w.old }
    ensures { w.new ≡ folded_behind (chosen field) t.now t2.now challenge.0 w.old }
{
    let (block, out) = w.split_at_mut(t.len() + t.len());
    crate::fold_block(t, t2, block, challenge, out, field);
}
