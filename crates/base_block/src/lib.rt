// One base message times the base matrix: the sum of its words times the rows.
#![tactic(auto)]

ghost use Rattle.std.specs.Prelude.{◌≡◌, length};
ghost use Rattle.residue.specs.Chosen.{chosen};
ghost use Rattle.base_block.specs.Blocks.{BlockLent, block_of};

use code::spread;
use residue::{Field, Residue};

// The block of a base message of two words.
fn block_of_two(n: usize, g: &[u32], m: &[u32], out: &mut [u32], field: Field)
    requires { BlockLent (chosen field) n g.now m.now out.old × (length m.now ≡ 2) }
    ensures { out.new ≡ block_of (chosen field) n g.now m.now }
{
    let a = Residue::new(m[0], field);
    let b = Residue::new(m[1], field);
    let e = n + n;
    row_sums::two_rows(a, b, &g[..n], &g[n..e], out, field);
}

// The block of a base message of four words.
fn block_of_four(n: usize, g: &[u32], m: &[u32], out: &mut [u32], field: Field)
    requires { BlockLent (chosen field) n g.now m.now out.old × (length m.now ≡ 4) }
    ensures { out.new ≡ block_of (chosen field) n g.now m.now }
{
    let a = Residue::new(m[0], field);
    let b = Residue::new(m[1], field);
    let c = Residue::new(m[2], field);
    let d = Residue::new(m[3], field);
    let e = n + n;
    let f = e + n;
    let l = f + n;
    row_sums::four_rows(
        a,
        b,
        c,
        d,
        &g[..n],
        &g[n..e],
        &g[e..f],
        &g[f..l],
        out,
        field,
    );
}

// m is one word for each row of g: 1, 2 or 4.
pub fn base_block(n: usize, g: &[u32], m: &[u32], out: &mut [u32], field: Field)
    requires { BlockLent (chosen field) n g.now m.now out.old }
    ensures { out.new ≡ block_of (chosen field) n g.now m.now }
{
    match m.len() {
        1 => spread::scale(Residue::new(m[0], field), g, out, field),
        2 => block_of_two(n, g, m, out, field),
        _ => block_of_four(n, g, m, out, field),
    }
}
