// Folding a block: at each place the value at the challenge of the line through two words.
#![tactic(auto)]

ghost use Rattle.std.specs.Prelude.{◌≡◌, ◌+◌, length};
ghost use Rattle.algebra.specs.WordLists.{Low as LowWords};
ghost use Rattle.residue.specs.Elements.{P, Low};
ghost use Rattle.residue.specs.Chosen.{chosen};
ghost use Rattle.inversion.specs.Inversion.{Diagonals};
ghost use Rattle.lines.specs.Folds.{fold_words};

use residue::{Field, Residue};

pub mod behind;
mod draw;

// The fold of a block, in a slice of its own.
pub fn fold_block(
    t: &[u32],
    t2: &[u32],
    block: &[u32],
    challenge: Residue,
    out: &mut [u32],
    field: Field,
)
    requires { Diagonals (chosen field) 1 (length out.old) t.now t2.now × (length t.now ≡ length out.old) × (length t2.now ≡ length out.old) × (length block.now ≡ length out.old + length out.old) × LowWords (P (chosen field)) block.now × Low (chosen field) challenge }
    ensures { out.new ≡ fold_words (chosen field) (length out.old) t.now t2.now block.now challenge.0 }
{
    rows::invert_scaled(t, t2, out, field);
    draw::draw(t, block, challenge, out, field);
}
