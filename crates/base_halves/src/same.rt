// A block compared with the codeword of a message, level by level from the top: a step peels the right half of the message off, and leaves
// a block that has to be the codeword of the left half.
ghost use Rattle.std.specs.Prelude.{suc, ◌≤◌};
ghost use Rattle.job.specs.Limits.{max_depth};
ghost use Rattle.residue.specs.Chosen.{chosen};
ghost use Rattle.undo.specs.Steps.{longest_base};
ghost use Rattle.base_halves.specs.Steps.{LevelAt, TopLent, CheckLent, Stepped, same_lent, same_rest, Checked};
ghost use Rattle.base_halves.specs.Comparing.{CompareInput, Compared};

use base_halves_step::{base, right};
use base_spread::RowCode;
use halves_step::peel;
use residue::Field;

// The words of a block of a level, and where the level's diagonal begins and ends.
#[derive(Clone, Copy)]
pub struct LevelPlace {
    pub size: usize,
    pub off: usize,
    pub end: usize,
}

fn level_place(level: u32, n: usize) -> LevelPlace
    requires { (level ≤ max_depth) × (n ≤ longest_base) }
    ensures { LevelAt level n result.size result.off result.end }
{
    let q = job::message_len(level);
    let size = n * q;
    let off = n * (q - 1);
    LevelPlace {
        size,
        off,
        end: off + size,
    }
}

// The step from the lent block to level `low`; what is left begins at m.
fn top_step(code: &RowCode, low: u32, m: usize, block: &[u32], work: &mut [u32]) -> bool
    requires { TopLent (chosen code.now.field) low code.now.k code.now.n m code.now.g.now code.now.t.now code.now.t2.now block.now work.old }
    ensures { Stepped (chosen code.now.field) low code.now.k code.now.n m code.now.g.now code.now.t.now code.now.t2.now (same_lent (chosen code.now.field) (suc low) code.now.k code.now.n code.now.g.now code.now.t.now code.now.t2.now block.now work.old) work.old result work.new }
{
    let RowCode {
        n,
        t,
        t2,
        field,
        ..
    } = *code;
    let LevelPlace { size, off, end } = level_place(low, n);
    let e = m + size;
    right::write_right(code, low, m, work);
    peel::peel_lent(&t[off..end], &t2[off..end], block, &mut work[m..e], field)
}

// The step from the block of level low + 1 that begins at m to level `low`.
fn step(code: &RowCode, low: u32, m: usize, work: &mut [u32]) -> bool
    requires { CheckLent (chosen code.now.field) (suc low) code.now.k code.now.n m code.now.g.now code.now.t.now code.now.t2.now work.old }
    ensures { Stepped (chosen code.now.field) low code.now.k code.now.n m code.now.g.now code.now.t.now code.now.t2.now (same_rest (chosen code.now.field) (suc low) code.now.k code.now.n m code.now.g.now code.now.t.now code.now.t2.now work.old) work.old result work.new }
{
    let RowCode {
        n,
        t,
        t2,
        field,
        ..
    } = *code;
    let LevelPlace { size, off, end } = level_place(low, n);
    let b = m + size + size;
    let e = b + size;
    right::write_right(code, low, b, work);
    peel::peel_front(&t[off..end], &t2[off..end], &mut work[m..e], field)
}

// Whether the block of a level that begins at m is the codeword of the message of that level in front. A loop, since a call of itself at each level would take
// too much stack.
fn check(code: &RowCode, level: u32, m: usize, work: &mut [u32]) -> bool
    requires { CheckLent (chosen code.now.field) level code.now.k code.now.n m code.now.g.now code.now.t.now code.now.t2.now work.old }
    ensures { Checked (chosen code.now.field) level code.now.k code.now.n m code.now.g.now code.now.t.now code.now.t2.now work.old result work.new }
{
    let RowCode { k, n, g, field, .. } = *code;
    for i in (0..level).rev() {
        if !step(code, i, m, work) {
            return false;
        }
    }
    let e = m + n;
    let made = base::base_codeword(n, g, &work[..k], field);
    base::same_words(&made[..n], &work[m..e])
}

// k rows of n words, of the rate 4 or more.
pub fn same_codeword_rows(code: &RowCode, depth: u32, block: &[u32], work: &mut [u32]) -> bool
    requires { CompareInput (chosen code.now.field) depth code.now.k code.now.n code.now.g.now code.now.t.now code.now.t2.now block.now work.old }
    ensures { Compared (chosen code.now.field) depth code.now.k code.now.n code.now.g.now code.now.t.now code.now.t2.now block.now work.old result work.new }
{
    let RowCode { k, n, g, field, .. } = *code;
    if depth == 0 {
        let made = base::base_codeword(n, g, &work[..k], field);
        return base::same_words(&made[..n], block);
    }
    let low = depth - 1;
    let m = k * job::message_len(depth);
    top_step(code, low, m, block, work) && check(code, low, m, work)
}
