// The base checks: block 0 holds v times the base matrix. The matrix is lent row by row, as many rows of n words as v has words.
ghost use Rattle.std.specs.Prelude.{◌≡◌, length};
ghost use Rattle.algebra.specs.Lists.{row};
ghost use Rattle.basefold.specs.Checks.{first_failure};
ghost use Rattle.residue.specs.Elements.{word};
ghost use Rattle.residue.specs.Chosen.{chosen};
ghost use Rattle.verdict.specs.Verdicts.{found};
ghost use Rattle.base_checks.specs.Steps.{base_word, base_at, WordLent, BasesLent};

use residue::{Field, Residue};
use verdict::Failure;
use words::entry;

// v times column j.
pub fn word_at(n: usize, v: &[u32], g: &[u32], j: usize, field: Field) -> Residue
    requires { WordLent (chosen field) n v.now g.now j }
    ensures { result.0 ≡ word (chosen field) (base_word (chosen field) (length v.now) n v.now g.now j) }
{
    let mut s = 0;
    for b in 0..v.len() {
        s = entry::plus_product(s, v[b], g[b * n + j], field);
    }
    Residue::new(s, field)
}

pub fn bases(n: usize, v: &[u32], g: &[u32], bottom: &[u32], field: Field) -> Result<(), Failure>
    requires { BasesLent (chosen field) n v.now g.now bottom.now }
    ensures { found result ≡ first_failure (row n (base_at (chosen field) n v.now g.now bottom.now)) }
{
    for j in 0..n {
        if word_at(n, v, g, j, field).word() != bottom[j] {
            let place = j as u32;
            return Err(Failure::Base(place));
        }
    }
    Ok(())
}
