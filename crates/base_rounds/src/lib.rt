// The rounds of an opening over base messages of k = 2^low words, from the top variable down to the lowest that is not inside a base message.
#![tactic(auto)]

ghost use Rattle.std.specs.Prelude.{◌≡◌, true, ◌+◌, ◌*◌, ◌^◌, ◌<◌, length, take};
ghost use Rattle.residue.specs.Chosen.{chosen};
ghost use Rattle.algebra.specs.Lists.{put};
ghost use Rattle.basefold.specs.Layout.{final_at, block_at};
ghost use Rattle.base_spread.specs.LentRows.{codeword_rows};
ghost use Rattle.base_rounds.specs.RowRounds.{BlockInput, RoundInput, RoundResult};
ghost use Rattle.base_rounds.specs.RowOpening.{opening_rows, WriteInput};

use base_spread::RowCode;
use residue::{Field, Residue};

// The blocks below this level are so short that encoding takes less time than a fold with its one inversion.
const FOLDED_FROM: u32 = 6;

// Whether the block of level i is made from the block above it, which has to lie in the opening.
fn is_folded(depth: u32, i: u32) -> bool
    requires { i < depth }
    ensures { result ≡ true → i + 1 < depth }
{
    i >= FOLDED_FROM && i + 1 < depth
}

// The block of level i, the codeword of what is left, into its place: the fold of the block above it, or encoded.
fn write_level(code: &RowCode, depth: u32, i: u32, r: &[u32], opening: &mut [u32], work: &[u32])
    requires { BlockInput (chosen code.now.field) depth code.now.low i code.now.k code.now.n code.now.g.now code.now.t.now code.now.t2.now r.now opening.old work.now }
    ensures { opening.new ≡ put (block_at code.now.n code.now.low depth i) (codeword_rows (chosen code.now.field) i code.now.k code.now.n code.now.g.now code.now.t.now code.now.t2.now (take (2 ^ (code.now.low + i)) work.now)) opening.old }
{
    let RowCode {
        low,
        n,
        g,
        t,
        t2,
        field,
        ..
    } = *code;
    if is_folded(depth, i) {
        base_descend::fold_block(depth, low, i, &g[..n], t, t2, r, opening, field);
        return;
    }
    base_steps::write_block(code, depth, i, opening, work);
}

// From level i + 1 to level i; the new weight. h_(i+1) is that of the variable low + i, and sums over the low ones too.
fn write_round(
    code: &RowCode,
    depth: u32,
    i: u32,
    w: Residue,
    z: &[u32],
    r: &[u32],
    opening: &mut [u32],
    work: &mut [u32],
) -> Residue
    requires { RoundInput (chosen code.now.field) depth code.now.low i code.now.k code.now.n w code.now.g.now code.now.t.now code.now.t2.now z.now r.now opening.old work.old }
    ensures { RoundResult (chosen code.now.field) depth code.now.low i code.now.k code.now.n w code.now.g.now code.now.t.now code.now.t2.now z.now r.now opening.old work.old result opening.new work.new }
{
    let RowCode { low, field, .. } = *code;
    steps::write_round(low + depth, low + i, w, z, opening, work, field);
    let v = base_steps::fold_by_challenge(low, i, w, z, r, work, field);
    write_level(code, depth, i, r, opening, work);
    v
}

// All rounds of the message in the front of work: of the opening only v is missing then, which is the front of work.
pub fn all_rounds(
    code: &RowCode,
    depth: u32,
    z: &[u32],
    r: &[u32],
    opening: &mut [u32],
    work: &mut [u32],
)
    requires { WriteInput (chosen code.now.field) depth code.now.low code.now.k code.now.n code.now.g.now code.now.t.now code.now.t2.now (take (code.now.k * 2 ^ depth) work.old) z.now r.now (length opening.old) (length work.old) }
    ensures { put (final_at depth) (take code.now.k work.new) opening.new ≡ opening_rows (chosen code.now.field) code.now.low code.now.k code.now.n code.now.g.now code.now.t.now code.now.t2.now (take (code.now.k * 2 ^ depth) work.old) z.now r.now }
{
    let mut w = Residue::ONE;
    for i in (0..depth).rev() {
        w = write_round(code, depth, i, w, z, r, opening, work);
    }
}
