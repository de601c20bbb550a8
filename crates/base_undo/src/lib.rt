// The only message that a block of a code of k base rows allows. The columns of a block are independent of each other, so each is undone by itself.
#![tactic(auto)]

ghost use Rattle.std.specs.Prelude.{◌≡◌, List, ℕ, ◌*◌, ◌^◌, length, take};
ghost use Rattle.algebra.specs.WordLists.{Low};
ghost use Rattle.residue.specs.Elements.{P};
ghost use Rattle.residue.specs.Chosen.{chosen};
ghost use Rattle.base_undo.specs.Steps.{RowsInput, decoded_rows};

use base_spread::RowCode;
use residue::Field;

mod column;
mod groups;

// The message, in front of work: the first k columns undone, and of the words across them the groups of k times the inverse matrix in m. The base rows
// themselves are not asked for.
pub fn message_of_rows(code: &RowCode, depth: u32, m: &[u32], block: &[u32], work: &mut [u32])
    requires { RowsInput (chosen code.now.field) depth code.now.k code.now.n code.now.t.now code.now.t2.now block.now (length work.old) × (length m.now ≡ 16) × Low (P (chosen code.now.field)) m.now }
    ensures { (g : List ℕ) → take (code.now.k * 2 ^ depth) work.new ≡ decoded_rows (chosen code.now.field) depth code.now.k code.now.n g m.now code.now.t.now code.now.t2.now block.now }
{
    let RowCode { k, field, .. } = *code;
    column::undo_columns(code, depth, block, work);
    let q = job::message_len(depth);
    groups::transpose(k, q, work);
    let e = k * q;
    base_columns::solve_blocks(k, m, &mut work[..e], field);
}
