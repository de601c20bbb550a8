// One column of the base blocks of a message.
ghost use Rattle.std.specs.Prelude.{◌≡◌, ◌*◌, get_or, take};
ghost use Rattle.std.proofs.Math.Seq.{paste};
ghost use Rattle.residue.specs.Chosen.{chosen};
ghost use Rattle.base_block.specs.Blocks.{block_of};
ghost use Rattle.base_same.specs.Steps.{WordLent, BaseLent, column_words};

use base_spread::RowCode;
use residue::Field;
use words::entry;

// Word j of the base block of m: its words times column j of the base matrix.
fn block_word(n: usize, j: usize, g: &[u32], m: &[u32], field: Field) -> u32
    requires { WordLent (chosen field) n j g.now m.now }
    ensures { result ≡ get_or (block_of (chosen field) n g.now m.now) j 0 }
{
    let mut s = 0;
    let mut p = j;
    for b in 0..m.len() {
        s = entry::plus_product(s, m[b], g[p], field);
        p += n;
    }
    s
}

// Behind the q base messages in front of w, word j of the base block of each.
fn write_words(code: &RowCode, q: usize, j: usize, w: &mut [u32])
    requires { BaseLent (chosen code.now.field) code.now.k code.now.n q j code.now.g.now w.old }
    ensures { w.new ≡ paste w.old (code.now.k * q) (column_words (chosen code.now.field) code.now.k code.now.n q j code.now.g.now (take (code.now.k * q) w.old)) q }
{
    let RowCode { k, n, g, field, .. } = *code;
    let h = k * q;
    let mut a = 0;
    for i in 0..q {
        let e = a + k;
        let p = h + i;
        let v = block_word(n, j, g, &w[a..e], field);
        w[p] = v;
        a = e;
    }
}

// The same for base messages of one word: a loop without another in it.
fn write_scaled(code: &RowCode, q: usize, j: usize, w: &mut [u32])
    requires { BaseLent (chosen code.now.field) 1 code.now.n q j code.now.g.now w.old }
    ensures { w.new ≡ paste w.old (1 * q) (column_words (chosen code.now.field) 1 code.now.n q j code.now.g.now (take (1 * q) w.old)) q }
{
    let RowCode { g, field, .. } = *code;
    let x = g[j];
    for i in 0..q {
        let p = q + i;
        w[p] = entry::plus_product(0, w[i], x, field);
    }
}

pub fn write_column(code: &RowCode, q: usize, j: usize, w: &mut [u32])
    requires { BaseLent (chosen code.now.field) code.now.k code.now.n q j code.now.g.now w.old }
    ensures { w.new ≡ paste w.old (code.now.k * q) (column_words (chosen code.now.field) code.now.k code.now.n q j code.now.g.now (take (code.now.k * q) w.old)) q }
{
    if code.k == 1 {
        write_scaled(code, q, j, w);
        return;
    }
    write_words(code, q, j, w);
}
