// Tests of whole slices, with no early exit, so that they run at the speed of memory.
ghost use Rattle.std.specs.Prelude.{◌≡◌, not, ◌&&◌, ◌≤◌, ltb, length, take};
ghost use Rattle.residue.specs.Chosen.{chosen};
ghost use Rattle.residue.specs.Elements.{P};
ghost use Rattle.words.specs.Scans.{all_under, all_below, none_zero, PlacesScanned, PairScanned};

use residue::{Field, Residue};

// Whether each word is below p.
pub fn all_under(s: &[u32], p: u32) -> bool
    ensures { result ≡ all_under p s.now }
{
    let mut ok = true;
    for w in s {
        ok &= *w < p;
    }
    ok
}

// Whether each word is below the modulus.
pub fn all_below(s: &[u32], field: Field) -> bool
    ensures { result ≡ all_below (chosen field) s.now }
{
    all_under(s, Residue::modulus(field))
}

// Whether each word of three slices is below the modulus.
pub fn three_below(a: &[u32], b: &[u32], c: &[u32], field: Field) -> bool
    ensures { result ≡ (all_below (chosen field) a.now && (all_below (chosen field) b.now && all_below (chosen field) c.now)) }
{
    all_below(a, field) && all_below(b, field) && all_below(c, field)
}

// Whether no word is 0.
pub fn none_zero(s: &[u32]) -> bool
    ensures { result ≡ none_zero s.now }
{
    let mut ok = true;
    for x in s {
        ok &= *x != 0;
    }
    ok
}

// What one pass over two slices finds.
#[derive(Clone, Copy, Debug, PartialEq, Eq)]
pub struct PairScan {
    // Each word of both is below the modulus.
    pub below: bool,
    // They differ in every place that both have.
    pub apart: bool,
}

fn either_high(x: u32, y: u32, p: u32) -> bool
    ensures { not result ≡ (ltb x p && ltb y p) }
{
    (x >= p) | (y >= p)
}

// Of the first n places. The loop keeps what is wrong: for vectors a test of words that are too large takes less than one of words that are not.
fn scan_places(n: usize, s: &[u32], t: &[u32], p: u32) -> PairScan
    requires { (n ≤ length s.now) × (n ≤ length t.now) }
    ensures { PlacesScanned p (take n s.now) (take n t.now) result.below result.apart }
{
    let mut high = false;
    let mut equal = false;
    for j in 0..n {
        let x = s[j];
        let y = t[j];
        high |= either_high(x, y, p);
        equal |= x == y;
    }
    PairScan {
        below: !high,
        apart: !equal,
    }
}

// For each field by itself: a test against a number that is known when this is compiled takes fewer steps.
fn scan_known(n: usize, s: &[u32], t: &[u32], field: Field) -> PairScan
    requires { (n ≤ length s.now) × (n ≤ length t.now) }
    ensures { PlacesScanned (P (chosen field)) (take n s.now) (take n t.now) result.below result.apart }
{
    match field {
        Field::First => scan_places(n, s, t, Residue::MODULUS),
        Field::Second => scan_places(n, s, t, Residue::SECOND_MODULUS),
    }
}

// Where one slice is longer, the rest of it is read too.
pub fn scan_pair(s: &[u32], t: &[u32], field: Field) -> PairScan
    ensures { PairScanned (chosen field) s.now t.now result.below result.apart }
{
    let p = Residue::modulus(field);
    let n = s.len().min(t.len());
    let places = scan_known(n, s, t, field);
    let first = all_under(&s[n..], p);
    let second = all_under(&t[n..], p);
    PairScan {
        below: places.below & (first & second),
        apart: places.apart,
    }
}
