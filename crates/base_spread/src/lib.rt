// Encoding with a base matrix of k rows: k words a base message, rows of n words.
#![tactic(auto)]

ghost use Rattle.std.specs.Prelude.{◌≡◌};
ghost use Rattle.residue.specs.Chosen.{chosen};
ghost use Rattle.base_spread.specs.LentRows.{codeword_rows};
ghost use Rattle.base_spread.specs.Steps.{EncodeLent};

use code::lift;
use residue::{Field, Residue};

pub mod spread;

// The code that a base matrix and the diagonals of all levels make. g holds the k rows of the base matrix, of n words each, one behind the other, and
// `low` variables are inside a base message: k is 2^low. t and t2 hold the diagonals of each level, the lowest first.
#[derive(Clone, Copy)]
pub struct RowCode<'g, 't, 't2> {
    pub low: u32,
    pub k: usize,
    pub n: usize,
    pub g: &'g [u32],
    pub t: &'t [u32],
    pub t2: &'t2 [u32],
    pub field: Field,
}

// Above the base blocks the code is that of any one row of n words: the first is lent for its length.
// One row, the most frequent case, has 16 words at most, and takes what the levels divide by into the row; else the messages' words take it.
pub fn encode_rows(code: &RowCode, depth: u32, m: &[u32], out: &mut [u32])
    requires { EncodeLent (chosen code.now.field) depth code.now.k code.now.n code.now.g.now code.now.t.now code.now.t2.now m.now out.old }
    ensures { out.new ≡ codeword_rows (chosen code.now.field) depth code.now.k code.now.n code.now.g.now code.now.t.now code.now.t2.now m.now }
{
    let RowCode {
        k,
        n,
        g,
        t,
        t2,
        field,
        ..
    } = *code;
    if k == 1 && n <= 16 {
        row_code::encode_row(depth, g, t, t2, m, out, field);
        return;
    }
    let f = Residue::scale_power(depth, field);
    spread::spread_blocks(k, n, g, m, out, f, field);
    lift::lift_loose(depth, &g[..n], t, t2, out, field);
    lift::settle(out, field);
}
