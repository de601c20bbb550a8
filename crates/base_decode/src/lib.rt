// Whether a block is a codeword of a code of k base rows, and its message.
#![tactic(auto)]

ghost use Rattle.std.specs.Prelude.{length};
ghost use Rattle.residue.specs.Chosen.{chosen};
ghost use Rattle.base_halves.specs.Comparing.{Compared};
ghost use Rattle.base_same.specs.Steps.{ColumnsInput};
ghost use Rattle.base_decode.specs.Decoding.{DecodeRows, Tried};

use base_halves::same;
use base_spread::RowCode;
use residue::Field;

// From this rate on the codeword of half a message, and half as much again, find room behind the message.
const BY_HALVES: usize = 4;

// Whether the block is the codeword of the message that was found, which stays in front of work.
fn is_its_codeword(code: &RowCode, depth: u32, block: &[u32], work: &mut [u32]) -> bool
    requires { ColumnsInput (chosen code.now.field) depth code.now.k code.now.n code.now.g.now code.now.t.now code.now.t2.now block.now work.old }
    ensures { Compared (chosen code.now.field) depth code.now.k code.now.n code.now.g.now code.now.t.now code.now.t2.now block.now work.old result work.new }
{
    let RowCode { k, n, .. } = *code;
    if n < BY_HALVES * k {
        return base_same::same_columns_rows(code, depth, block, work);
    }
    same::same_codeword_rows(code, depth, block, work)
}

// m holds the inverse of the first k columns, a row four words apart from the next. Where the block is a codeword, its message stands in front of work.
pub fn is_codeword_rows(
    code: &RowCode,
    depth: u32,
    m: &[u32],
    block: &[u32],
    work: &mut [u32],
) -> bool
    requires { DecodeRows (chosen code.now.field) depth code.now.k code.now.n code.now.g.now m.now code.now.t.now code.now.t2.now block.now (length work.old) }
    ensures { Tried (chosen code.now.field) depth code.now.k code.now.n code.now.g.now code.now.t.now code.now.t2.now block.now result work.new }
{
    base_undo::message_of_rows(code, depth, m, block, work);
    is_its_codeword(code, depth, block, work)
}
