// The codeword of the right half of a message of whole base messages that stands in front of a slice, written behind the message in the same slice.
ghost use Rattle.std.specs.Prelude.{◌≡◌, take, drop};
ghost use borrow.Rule.Slice.PartMut.{put_mid};
ghost use Rattle.residue.specs.Chosen.{chosen};
ghost use Rattle.base_block.specs.Blocks.{block_of};
ghost use Rattle.base_halves_step.specs.Steps.{BehindLent, RightLent, RightSpread, CodeLent, RightWritten};

use base_spread::RowCode;
use code::lift;
use halves_step::right;
use residue::Field;

// The base block of the k words from `from` on, in the n words from `to` on, which stand behind them.
fn write_base_block(
    k: usize,
    n: usize,
    from: usize,
    to: usize,
    g: &[u32],
    work: &mut [u32],
    field: Field,
)
    requires { BehindLent (chosen field) k n from to g.now work.old }
    ensures { work.new ≡ put_mid to n work.old (block_of (chosen field) n g.now (take k (drop from work.old))) }
{
    let (front, behind) = work.split_at_mut(to);
    base_block::base_block(n, g, &front[from..from + k], &mut behind[..n], field);
}

// The base blocks of the q base messages of the right half, from b on.
fn spread_right(code: &RowCode, q: usize, b: usize, work: &mut [u32])
    requires { RightLent (chosen code.now.field) code.now.k code.now.n q b code.now.g.now work.old }
    ensures { RightSpread (chosen code.now.field) code.now.k code.now.n q b code.now.g.now work.old work.new }
{
    let RowCode { k, n, g, field, .. } = *code;
    let mut i = k * q;
    let mut x = b;
    for j in 0..q {
        write_base_block(k, n, i, x, g, work, field);
        i += k;
        x += n;
    }
}

// The base blocks, and then the levels above: there the code is that of any one row of n words, and the first is lent for its length.
fn write_blocks(code: &RowCode, level: u32, b: usize, work: &mut [u32])
    requires { CodeLent (chosen code.now.field) level code.now.k code.now.n b code.now.g.now code.now.t.now code.now.t2.now work.old }
    ensures { RightWritten (chosen code.now.field) level code.now.k code.now.n b code.now.g.now code.now.t.now code.now.t2.now work.old work.new }
{
    let RowCode {
        n,
        g,
        t,
        t2,
        field,
        ..
    } = *code;
    let q = job::message_len(level);
    spread_right(code, q, b, work);
    let e = b + n * q;
    lift::lift(level, &g[..n], t, t2, &mut work[b..e], field);
}

// The message has two halves of level `level`. One word a base message has its own loop.
pub fn write_right(code: &RowCode, level: u32, b: usize, work: &mut [u32])
    requires { CodeLent (chosen code.now.field) level code.now.k code.now.n b code.now.g.now code.now.t.now code.now.t2.now work.old }
    ensures { RightWritten (chosen code.now.field) level code.now.k code.now.n b code.now.g.now code.now.t.now code.now.t2.now work.old work.new }
{
    let RowCode {
        k,
        g,
        t,
        t2,
        field,
        ..
    } = *code;
    if k == 1 {
        right::write_right(level, b, g, t, t2, work, field);
        return;
    }
    write_blocks(code, level, b, work);
}
