// Whether a block is the codeword, of k base rows, of a message in front of the work buffer, whose first k columns it has. The columns of a codeword are
// independent of each other, so each is encoded by itself, behind the message, which stays where it stands.
#![tactic(auto)]

ghost use Rattle.std.specs.Prelude.{◌≡◌, ◌*◌, ◌^◌, ◌<◌, take};
ghost use Rattle.algebra.specs.Tests.{all_same};
ghost use Rattle.foldable.specs.Every.{every};
ghost use Rattle.residue.specs.Chosen.{chosen};
ghost use Rattle.base_spread.specs.LentRows.{codeword_rows};
ghost use Rattle.base_halves.specs.Comparing.{Compared};
ghost use Rattle.base_same.specs.Steps.{MessageLent, ColumnsInput};

use base_spread::RowCode;
use columns::lift;
use residue::Field;

mod column;

// Whether column j of the block is that of the codeword of the message in front of work. Above the base blocks the code is that of any one row of n words:
// the first is lent for its length.
fn same_column(code: &RowCode, depth: u32, j: usize, block: &[u32], work: &mut [u32]) -> bool
    requires { MessageLent (chosen code.now.field) depth code.now.k code.now.n code.now.g.now code.now.t.now code.now.t2.now block.now work.old × (j < code.now.n) }
    ensures { (result ≡ all_same (every 0 code.now.n j (2 ^ depth) (codeword_rows (chosen code.now.field) depth code.now.k code.now.n code.now.g.now code.now.t.now code.now.t2.now (take (code.now.k * 2 ^ depth) work.old))) (every 0 code.now.n j (2 ^ depth) block.now)) × (take (code.now.k * 2 ^ depth) work.new ≡ take (code.now.k * 2 ^ depth) work.old) }
{
    let RowCode {
        k,
        n,
        g,
        t,
        t2,
        field,
        ..
    } = *code;
    let q = job::message_len(depth);
    let h = k * q;
    let e = h + q;
    column::write_column(code, q, j, work);
    lift::lifts_to(depth, j, &g[..n], t, t2, block, &mut work[h..e], field)
}

// The first k columns of the block are right: the message was found from them.
pub fn same_columns_rows(code: &RowCode, depth: u32, block: &[u32], work: &mut [u32]) -> bool
    requires { ColumnsInput (chosen code.now.field) depth code.now.k code.now.n code.now.g.now code.now.t.now code.now.t2.now block.now work.old }
    ensures { Compared (chosen code.now.field) depth code.now.k code.now.n code.now.g.now code.now.t.now code.now.t2.now block.now work.old result work.new }
{
    let RowCode { k, n, .. } = *code;
    for j in k..n {
        if !same_column(code, depth, j, block, work) {
            return false;
        }
    }
    true
}
