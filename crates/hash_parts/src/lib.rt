// What is written for each query of a hash tree, in a part of the buffer that is the query's own.
#![tactic(auto)]

ghost use Rattle.std.specs.Prelude.{◌≡◌, not, ◌<◌};
ghost use Rattle.algebra.specs.Tests.{all};
ghost use Rattle.hash_parts.specs.Queries.{under};

pub mod leaf_words;
pub mod siblings;

// Where the parts of a buffer stand, one for each query: the first at `first`, the others `stride` bytes apart.
#[derive(Clone, Copy)]
pub struct Slots<'a> {
    pub queries: &'a [u32],
    pub first: usize,
    pub stride: usize,
}

// Whether no query's leaf is below node j of height t.
pub fn untouched(queries: &[u32], n: usize, t: u32, j: usize) -> bool
    requires { (0 < n) × (t < 64) }
    ensures { result ≡ all (λ u. not (under n t j u)) queries.now }
{
    let mut ok = true;
    for u in queries {
        ok &= (*u as usize % n) >> t != j;
    }
    ok
}
