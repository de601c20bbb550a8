// The sums, from the top one down: whether h_i sums to the claim, and the next claim.
ghost use Rattle.std.specs.Prelude.{◌≡◌, ◌-◌, get_or};
ghost use Rattle.algebra.specs.WordLists.{elements};
ghost use Rattle.multilinear.specs.Quadratic.{through as quadratic};
ghost use Rattle.basefold.specs.Layout.{sent};
ghost use Rattle.basefold.specs.Checks.{same as same_element};
ghost use Rattle.residue.specs.Elements.{F, K, el, elem, word, half, Low};
ghost use Rattle.residue.specs.Chosen.{chosen};
ghost use Rattle.claims.specs.Steps.{RoundSent, round_sum, ChallengeSent, SumsInput, SumsResult};

use residue::{Field, Residue};
use verdict::Failure;

// Of degree at most 2, with the values a, b, c at 0, 1, 2: at x, by differences.
fn through(a: Residue, b: Residue, c: Residue, x: Residue, field: Field) -> Residue
    requires { Low (chosen field) a × Low (chosen field) b × Low (chosen field) c × Low (chosen field) x }
    ensures { result.0 ≡ word (chosen field) (quadratic (K (chosen field)) (half (chosen field)) (elem (chosen field) a) (elem (chosen field) b) (elem (chosen field) c) (elem (chosen field) x)) }
{
    let first = b.minus(a, field);
    let second = c.minus(b, field).minus(first, field);
    let steps = x.minus(Residue::ONE, field).halved(field);
    let slope = first.plus_product(steps, second, field);
    a.plus_product(x, slope, field)
}

// Whether h_i at 0 and at 1 sum to the claim.
fn sum_holds(depth: u32, i: u32, claim: Residue, opening: &[u32], field: Field) -> bool
    requires { Low (chosen field) claim × RoundSent (chosen field) depth i opening.now }
    ensures { result ≡ same_element (F (chosen field)) (round_sum (chosen field) depth i opening.now) (elem (chosen field) claim) }
{
    let at = layout::round_at(depth, i);
    let a = Residue::new(opening[at], field);
    let b = Residue::new(opening[at + 1], field);
    a.plus(b, field).same(claim)
}

// h_i at the challenge r_(i-1).
fn next_claim(depth: u32, i: u32, r: &[u32], opening: &[u32], field: Field) -> Residue
    requires { RoundSent (chosen field) depth i opening.now × ChallengeSent (chosen field) i r.now }
    ensures { result.0 ≡ word (chosen field) (quadratic (K (chosen field)) (half (chosen field)) (sent (F (chosen field)) (elements (chosen field) opening.now) depth i 0) (sent (F (chosen field)) (elements (chosen field) opening.now) depth i 1) (sent (F (chosen field)) (elements (chosen field) opening.now) depth i 2) (el (chosen field) (get_or r.now (i - 1) 0))) }
{
    let at = layout::round_at(depth, i);
    let a = Residue::new(opening[at], field);
    let b = Residue::new(opening[at + 1], field);
    let c = Residue::new(opening[at + 2], field);
    through(a, b, c, Residue::new(r[(i - 1) as usize], field), field)
}

pub fn sums(
    depth: u32,
    y: Residue,
    r: &[u32],
    opening: &[u32],
    field: Field,
) -> Result<Residue, Failure>
    requires { SumsInput (chosen field) depth y r.now opening.now }
    ensures { SumsResult (chosen field) depth y r.now opening.now result }
{
    let mut claim = y;
    for i in (1..=depth).rev() {
        if !sum_holds(depth, i, claim, opening, field) {
            return Err(Failure::Sum(i));
        }
        claim = next_claim(depth, i, r, opening, field);
    }
    Ok(claim)
}
