// Writing an opening over base messages of k = 2^low words: k rows of n words make the base matrix.
#![tactic(auto)]

ghost use Rattle.std.specs.Prelude.{length};
ghost use Rattle.residue.specs.Chosen.{chosen};
ghost use Rattle.base_rounds.specs.RowOpening.{WriteInput};
ghost use Rattle.base_open.specs.RowWriting.{WriteResult};

use base_spread::RowCode;
use residue::{Field, Residue};

// The opening of a message for k rows of n words, and f(z). Of exact lengths; work is left as zeros.
pub fn write_rows(
    code: &RowCode,
    depth: u32,
    message: &[u32],
    z: &[u32],
    r: &[u32],
    opening: &mut [u32],
    work: &mut [u32],
) -> Residue
    requires { WriteInput (chosen code.now.field) depth code.now.low code.now.k code.now.n code.now.g.now code.now.t.now code.now.t2.now message.now z.now r.now (length opening.old) (length work.old) }
    ensures { WriteResult (chosen code.now.field) code.now.low code.now.k code.now.n code.now.g.now code.now.t.now code.now.t2.now message.now z.now r.now (length work.old) result opening.new work.new }
{
    let RowCode { k, field, .. } = *code;
    let v = polynomial::value(message, z, field);
    words::copy(message, &mut work[..message.len()]);
    base_rounds::all_rounds(code, depth, z, r, opening, work);
    base_steps::write_final_value(depth, k, opening, work);
    words::clear(work);
    v
}
