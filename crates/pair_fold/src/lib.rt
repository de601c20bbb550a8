// A block of pairs folded by one level, by a pair as challenge. The diagonals are words: real.
#![tactic(auto)]

ghost use Rattle.std.specs.Prelude.{◌≡◌};
ghost use Rattle.algebra.specs.Words.{𝔽₁};
ghost use Rattle.pairs.specs.Root.{no_root₁};
ghost use Rattle.pair.specs.PairWords.{pair_of, LowPair};
ghost use Rattle.pair_fold.specs.Folding.{PairFoldLent, fold_pair_words};

use pair::Pair;
use residue::Field;

pub mod lines;

// block has twice as many pairs as t has words, and out takes as many pairs as t has words. Its first half holds the inverses of T' - T meanwhile.
pub fn fold_pairs_lent(t: &[u32], t2: &[u32], block: &[u32], challenge: Pair, out: &mut [u32])
    requires { LowPair 𝔽₁ challenge × PairFoldLent 𝔽₁ t.now t2.now block.now out.old }
    ensures { out.new ≡ fold_pair_words 𝔽₁ no_root₁ t.now t2.now block.now (pair_of 𝔽₁ challenge) }
{
    let n = t.len();
    inversion::invert_gaps(1, t, t2, &mut out[..n], Field::First);
    lines::draw(t, block, challenge, out);
}
