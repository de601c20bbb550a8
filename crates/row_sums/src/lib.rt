// Sums of two or four rows of words, each times a factor. Four are two and then two more: of four products a word over the second field the compiler makes no vectors.
#![tactic(auto)]

ghost use Rattle.std.specs.Prelude.{◌≡◌, map, ◌<◌};
ghost use Rattle.residue.specs.Elements.{P, Low, product, sum_product};
ghost use Rattle.residue.specs.Chosen.{chosen};
ghost use Rattle.residue.specs.Scale.{scale, lowered};
ghost use Rattle.row_sums.specs.Sums.{PairLow, TwoLent, MoreLent, FourLent, added_scaled, two_scaled, four_scaled};

use residue::{Field, Residue};
use words::entry;

// A loose sum of products is divided by scale, so factors are multiplied by it before: once a call, not once a word.
fn raised(a: Residue, field: Field) -> Residue
    requires { Low (chosen field) a }
    ensures { result.0 ≡ product (chosen field) a.0 (scale field) }
{
    match field {
        Field::First => a,
        Field::Second => a.times(Residue::second_scale(1), Field::Second),
    }
}

// l + a x + b y, divided by scale.
fn sum_two(l: u32, a: Residue, x: u32, b: Residue, y: u32, field: Field) -> u32
    requires { (l < P (chosen field)) × PairLow (chosen field) a.0 x × PairLow (chosen field) b.0 y }
    ensures { result ≡ sum_product (chosen field) (sum_product (chosen field) (lowered field l) (lowered field a.0) x) (lowered field b.0) y }
{
    let s = Residue::plus_two_loose(l, a, x, b, y, field);
    entry::settled(s, field)
}

fn two_raised(a: Residue, b: Residue, g: &[u32], h: &[u32], out: &mut [u32], field: Field)
    requires { TwoLent (chosen field) a.0 b.0 g.now h.now out.old }
    ensures { out.new ≡ two_scaled (chosen field) (lowered field a.0) (lowered field b.0) g.now h.now }
{
    for i in 0..out.len() {
        out[i] = sum_two(0, a, g[i], b, h[i], field);
    }
}

// a g + b h, each word written once.
pub fn two_rows(a: Residue, b: Residue, g: &[u32], h: &[u32], out: &mut [u32], field: Field)
    requires { TwoLent (chosen field) a.0 b.0 g.now h.now out.old }
    ensures { out.new ≡ two_scaled (chosen field) a.0 b.0 g.now h.now }
{
    let e = raised(a, field);
    let f = raised(b, field);
    two_raised(e, f, g, h, out, field);
}

// What out holds is divided too.
fn two_more(c: Residue, d: Residue, u: &[u32], v: &[u32], out: &mut [u32], field: Field)
    requires { MoreLent (chosen field) c.0 d.0 u.now v.now out.old }
    ensures { out.new ≡ added_scaled (chosen field) (lowered field d.0) v.now (added_scaled (chosen field) (lowered field c.0) u.now (map (lowered field) out.old)) }
{
    for i in 0..out.len() {
        out[i] = sum_two(out[i], c, u[i], d, v[i], field);
    }
}

// a g + b h + c u + d v. The first two are divided twice.
pub fn four_rows(
    a: Residue,
    b: Residue,
    c: Residue,
    d: Residue,
    g: &[u32],
    h: &[u32],
    u: &[u32],
    v: &[u32],
    out: &mut [u32],
    field: Field,
)
    requires { FourLent (chosen field) a.0 b.0 c.0 d.0 g.now h.now u.now v.now out.old }
    ensures { out.new ≡ four_scaled (chosen field) a.0 b.0 c.0 d.0 g.now h.now u.now v.now }
{
    let p = raised(raised(a, field), field);
    let q = raised(raised(b, field), field);
    let r = raised(c, field);
    let s = raised(d, field);
    two_raised(p, q, g, h, out, field);
    two_more(r, s, u, v, out, field);
}
