// Where a test of words fails first. A job looks for the place only once it refuses, so these searches stop at what they find. They give a place
// and no `Option`: docs/STATEMENTS.md names them with that promise.
#![tactic(auto)]

ghost use Rattle.std.specs.Prelude.{◌≡◌};
ghost use Rattle.places.specs.Places.{high_place, zero_place, equal_place};

pub mod inputs;

// The first word that is not below the bound; the length where there is none.
pub fn first_high(s: &[u32], bound: u32) -> usize
    ensures { result ≡ high_place bound s.now }
{
    for (k, w) in s.iter().enumerate() {
        if *w >= bound {
            return k;
        }
    }
    s.len()
}

// The first word that is 0; the length where there is none.
pub fn first_zero(s: &[u32]) -> usize
    ensures { result ≡ zero_place s.now }
{
    for (i, w) in s.iter().enumerate() {
        if *w == 0 {
            return i;
        }
    }
    s.len()
}

// The first place where both slices have the same word; the shorter length where there is none.
pub fn first_equal(s: &[u32], t: &[u32]) -> usize
    ensures { result ≡ equal_place s.now t.now }
{
    let n = s.len().min(t.len());
    for j in 0..n {
        if s[j] == t[j] {
            return j;
        }
    }
    n
}
