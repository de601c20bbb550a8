// Pairs re + im i of residues, with i i = -1, and slices that hold them two words a pair.
#![tactic(auto)]

ghost use Rattle.std.specs.Prelude.{◌≡◌, ◌+◌, ◌*◌, ◌<◌, length, set};
ghost use Rattle.algebra.specs.Words.{𝔽₁};
ghost use Rattle.pairs.specs.Pair.{add_p, sub_p, mul_p, real};
ghost use Rattle.residue.specs.Residues.{K, elem, Low};
ghost use Rattle.pair.specs.PairWords.{pair_of, pair_at, LowPair, Stands, PairLent};

use residue::{Field, Residue};

#[derive(Clone, Copy, Debug, PartialEq, Eq)]
pub struct Pair {
    pub re: Residue,
    pub im: Residue,
}

impl Pair {
    // a + 0 i
    pub fn real(a: Residue) -> Pair
        requires { Low a }
        ensures { Stands 𝔽₁ (real K (elem a)) result }
    {
        Pair {
            re: a,
            im: Residue::ZERO,
        }
    }

    pub fn plus(self, b: Pair) -> Pair
        requires { LowPair 𝔽₁ self × LowPair 𝔽₁ b }
        ensures { Stands 𝔽₁ (add_p K (pair_of 𝔽₁ self) (pair_of 𝔽₁ b)) result }
    {
        Pair {
            re: self.re.plus(b.re, Field::First),
            im: self.im.plus(b.im, Field::First),
        }
    }

    pub fn minus(self, b: Pair) -> Pair
        requires { LowPair 𝔽₁ self × LowPair 𝔽₁ b }
        ensures { Stands 𝔽₁ (sub_p K (pair_of 𝔽₁ self) (pair_of 𝔽₁ b)) result }
    {
        Pair {
            re: self.re.minus(b.re, Field::First),
            im: self.im.minus(b.im, Field::First),
        }
    }

    pub fn times(self, b: Pair) -> Pair
        requires { LowPair 𝔽₁ self × LowPair 𝔽₁ b }
        ensures { Stands 𝔽₁ (mul_p K (pair_of 𝔽₁ self) (pair_of 𝔽₁ b)) result }
    {
        let imaginary = self.im.times(b.im, Field::First);
        Pair {
            re: self
                .re
                .times(b.re, Field::First)
                .minus(imaginary, Field::First),
            im: self
                .re
                .times(b.im, Field::First)
                .plus_product(self.im, b.re, Field::First),
        }
    }

    // a self, for a real a: two products
    pub fn scaled(self, a: Residue) -> Pair
        requires { LowPair 𝔽₁ self × Low a }
        ensures { Stands 𝔽₁ (mul_p K (real K (elem a)) (pair_of 𝔽₁ self)) result }
    {
        Pair {
            re: a.times(self.re, Field::First),
            im: a.times(self.im, Field::First),
        }
    }

    // self + a * b: of the four products three are reduced with what they are added to.
    pub fn plus_product(self, a: Pair, b: Pair) -> Pair
        requires { LowPair 𝔽₁ self × LowPair 𝔽₁ a × LowPair 𝔽₁ b }
        ensures { Stands 𝔽₁ (add_p K (pair_of 𝔽₁ self) (mul_p K (pair_of 𝔽₁ a) (pair_of 𝔽₁ b))) result }
    {
        let im_im = a.im.times(b.im, Field::First);
        let cross = self.im.plus_product(a.re, b.im, Field::First);
        Pair {
            re: self
                .re
                .plus_product(a.re, b.re, Field::First)
                .minus(im_im, Field::First),
            im: cross.plus_product(a.im, b.re, Field::First),
        }
    }
}

// Pair j of s.
pub fn load(s: &[u32], j: usize) -> Pair
    requires { PairLent 𝔽₁ j s.now }
    ensures { Stands 𝔽₁ (pair_at 𝔽₁ s.now j) result }
{
    let at = 2 * j;
    Pair {
        re: Residue::new(s[at], Field::First),
        im: Residue::new(s[at + 1], Field::First),
    }
}

// p becomes pair j of s.
pub fn store(s: &mut [u32], j: usize, p: Pair)
    requires { 2 * j + 1 < length s.old }
    ensures { s.new ≡ set (set s.old (2 * j) p.re.0) (2 * j + 1) p.im.0 }
{
    let at = 2 * j;
    s[at] = p.re.word();
    s[at + 1] = p.im.word();
}
