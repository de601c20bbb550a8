// The steps of a writer of openings that know how many words a base message has: 2^low, in rows of n words. The round itself is that of `steps`,
// over the low variables and the others alike.
#![tactic(auto)]

ghost use Rattle.std.specs.Prelude.{◌≡◌, ◌+◌, ◌^◌, ◌<◌, ◌≤◌, length, take};
ghost use Rattle.residue.specs.Chosen.{chosen};
ghost use Rattle.algebra.specs.Lists.{put};
ghost use Rattle.basefold.specs.Layout.{final_at, block_at};
ghost use Rattle.job.specs.Limits.{max_depth};
ghost use Rattle.base_spread.specs.LentRows.{codeword_rows};
ghost use Rattle.base_steps.specs.RowSteps.{max_base, TakeInput, TakeResult, GiveBlockInput};

use base_spread::RowCode;
use residue::{Field, Residue};
use steps::{fold, weigh};

// Where the block of a level below the top one begins: 3 depth + 2^low + n (2^depth - 2^(level + 1)).
pub fn block_at(depth: u32, low: u32, n: usize, level: u32) -> usize
    requires { (low + depth ≤ max_depth) × (n ≤ max_base) × (level < depth) }
    ensures { result ≡ block_at n low depth level }
{
    let above = job::message_len(depth) - job::message_len(level + 1);
    layout::final_at(depth) + job::message_len(low) + n * above
}

// The challenge r_i, for the variable low + i: what is left is folded by it, and eq of it and that variable comes to the weight.
pub fn fold_by_challenge(
    low: u32,
    i: u32,
    w: Residue,
    z: &[u32],
    r: &[u32],
    work: &mut [u32],
    field: Field,
) -> Residue
    requires { TakeInput (chosen field) low i w z.now r.now work.old }
    ensures { TakeResult (chosen field) low i w z.now r.now work.old result work.new }
{
    let top = low + i;
    let n = job::message_len(top + 1);
    let a = Residue::new(r[i as usize], field);
    fold::fold(a, &mut work[..n], field);
    weigh::weigh(w, Residue::new(z[top as usize], field), a, field)
}

// The block of level i, the codeword of what is left, into its place.
pub fn write_block(code: &RowCode, depth: u32, i: u32, opening: &mut [u32], work: &[u32])
    requires { GiveBlockInput (chosen code.now.field) depth code.now.low i code.now.k code.now.n code.now.g.now code.now.t.now code.now.t2.now (length opening.old) work.now }
    ensures { opening.new ≡ put (block_at code.now.n code.now.low depth i) (codeword_rows (chosen code.now.field) i code.now.k code.now.n code.now.g.now code.now.t.now code.now.t2.now (take (2 ^ (code.now.low + i)) work.now)) opening.old }
{
    let RowCode { low, n, .. } = *code;
    let m = job::message_len(low + i);
    let at = block_at(depth, low, n, i);
    let end = at + n * job::message_len(i);
    base_spread::encode_rows(code, i, &work[..m], &mut opening[at..end]);
}

// v, the words that are left at last.
pub fn write_final_value(depth: u32, k: usize, opening: &mut [u32], work: &[u32])
    requires { (final_at depth + k ≤ length opening.old) × (k ≤ length work.now) }
    ensures { opening.new ≡ put (final_at depth) (take k work.now) opening.old }
{
    let at = layout::final_at(depth);
    let end = at + k;
    words::copy(&work[..k], &mut opening[at..end]);
}
