// The straight lines of pairs at the challenge, from the inverses of T' - T.
ghost use Rattle.std.specs.Prelude.{◌≡◌, length};
ghost use Rattle.algebra.specs.Lists.{row};
ghost use Rattle.algebra.specs.Words.{𝔽₁};
ghost use Rattle.residue.specs.Residues.{elem, Low};
ghost use Rattle.pair.specs.PairWords.{pair_of, LowPair, Stands, pair_words};
ghost use Rattle.pair_fold.specs.Steps.{pair_line, pair_lines, PairLinesLent, PairPlaceLent};

use pair::Pair;
use residue::{Field, Residue};

// The value at a of the line through (t, u) and (t', v), where s is the inverse of t' - t.
pub fn line(a: Pair, t: Residue, s: Residue, u: Pair, v: Pair) -> Pair
    requires { LowPair 𝔽₁ a × Low t × Low s × LowPair 𝔽₁ u × LowPair 𝔽₁ v }
    ensures { Stands 𝔽₁ (pair_line 𝔽₁ (pair_of 𝔽₁ a) (elem t) (elem s) (pair_of 𝔽₁ u) (pair_of 𝔽₁ v)) result }
{
    let slope = v.minus(u).scaled(s);
    u.plus_product(a.minus(Pair::real(t)), slope)
}

// The line of place j, where word j of out is still the inverse.
fn line_at(a: Pair, t: &[u32], block: &[u32], out: &[u32], j: usize) -> Pair
    requires { LowPair 𝔽₁ a × PairPlaceLent 𝔽₁ j t.now block.now out.now }
    ensures { Stands 𝔽₁ (pair_lines 𝔽₁ (length t.now) (pair_of 𝔽₁ a) t.now block.now out.now j) result }
{
    let u = pair::load(block, j);
    let v = pair::load(block, t.len() + j);
    line(
        a,
        Residue::new(t[j], Field::First),
        Residue::new(out[j], Field::First),
        u,
        v,
    )
}

// The first half of out holds the inverses. Place j is written at words 2j and 2j + 1, so from the last place down no inverse is lost before its use.
pub fn draw(t: &[u32], block: &[u32], challenge: Pair, out: &mut [u32])
    requires { LowPair 𝔽₁ challenge × PairLinesLent 𝔽₁ t.now block.now out.old }
    ensures { out.new ≡ pair_words 𝔽₁ (row (length t.now) (pair_lines 𝔽₁ (length t.now) (pair_of 𝔽₁ challenge) t.now block.now out.old)) }
{
    for j in (0..t.len()).rev() {
        let p = line_at(challenge, t, block, out, j);
        pair::store(out, j, p);
    }
}
