// Whole slices of clearances: tested, turned into words, and made of words.
ghost use Rattle.std.specs.Prelude.{◌≡◌, true, map, length, replicate};
ghost use Rattle.algebra.specs.Tests.{all};
ghost use Rattle.algebra.specs.WordLists.{Low};
ghost use Rattle.residue.specs.Elements.{P};
ghost use Rattle.residue.specs.Chosen.{chosen};
ghost use Rattle.clearance.specs.Clearances.{in_range, residue_of, clearance_of};

use crate::clearance;
use residue::{Field, Residue};

// Whether each clearance is in the range, with no early exit.
pub fn all_in_range(s: &[i32], field: Field) -> bool
    ensures { result ≡ all (in_range (chosen field)) s.now }
{
    let max = clearance::max_clearance(field);
    let min = -max;
    let mut ok = true;
    for x in s {
        ok &= clearance::in_range(*x, min, max);
    }
    ok
}

// The words of the residues that stand for the clearances.
pub fn to_words(s: &[i32], out: &mut [u32], field: Field)
    requires { (length out.old ≡ length s.now) × (all (in_range (chosen field)) s.now ≡ true) }
    ensures { out.new ≡ map (residue_of (chosen field)) s.now }
{
    let p = Residue::modulus(field);
    for i in 0..s.len() {
        out[i] = clearance::to_word(s[i], p);
    }
}

// The clearances that the words are, and zeros in place of the words. Residue::half, the middle of the residues, is the first that is an overlap.
pub fn to_clearances(s: &mut [u32], out: &mut [i32], field: Field)
    requires { (length out.old ≡ length s.old) × Low (P (chosen field)) s.old }
    ensures { (out.new ≡ map (clearance_of (chosen field)) s.old) × (s.new ≡ replicate (length s.old) 0) }
{
    let p = Residue::modulus(field);
    let border = Residue::half(field).word();
    for i in 0..s.len() {
        let x = clearance::to_clearance(s[i], border, p);
        out[i] = x;
        s[i] = 0;
    }
}
