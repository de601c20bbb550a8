// The adjugate of the first k columns, four words a row.
ghost use Rattle.std.specs.Prelude.{◌≡◌, ◌<◌};
ghost use Rattle.algebra.specs.Lists.{row};
ghost use Rattle.algebra.specs.WordLists.{Low};
ghost use Rattle.residue.specs.Elements.{P, Low as LowResidue, inverse_of};
ghost use Rattle.residue.specs.Chosen.{chosen};
ghost use Rattle.cofactor.specs.Rows.{Lent};
ghost use Rattle.base_matrix.specs.Steps.{cell_at, scaled_words};

use residue::{Field, Residue};
use words::entry;

// Place p: row p / 4 and column p % 4, and 0 where these are not among k.
fn cell(k: usize, n: usize, g: &[u32], p: usize, field: Field) -> u32
    requires { Lent (chosen field) k n g.now }
    ensures { result ≡ cell_at (chosen field) k n g.now p }
{
    let i = p / 4;
    let j = p % 4;
    if k <= i {
        return 0;
    }
    if k <= j {
        return 0;
    }
    cofactor::cofactor(k, n, g, j, i, field).word()
}

pub fn adjugate(k: usize, n: usize, g: &[u32], field: Field) -> [u32; 16]
    requires { Lent (chosen field) k n g.now }
    ensures { result ≡ row 16 (cell_at (chosen field) k n g.now) }
{
    let mut m = [0u32; 16];
    for p in 0..16 {
        m[p] = cell(k, n, g, p, field);
    }
    m
}

// Each word times q.
pub fn scale(q: Residue, m: &mut [u32], field: Field)
    requires { LowResidue (chosen field) q × Low (P (chosen field)) m.old }
    ensures { m.new ≡ scaled_words (chosen field) q.0 m.old }
{
    for p in 0..m.len() {
        m[p] = entry::scaled(q, m[p], field);
    }
}

// Each word divided by d: one inversion for all.
pub fn divide(d: u32, m: &mut [u32], field: Field)
    requires { (d < P (chosen field)) × (0 < d) × Low (P (chosen field)) m.old }
    ensures { m.new ≡ scaled_words (chosen field) (inverse_of (chosen field) d) m.old }
{
    let q = Residue::new(d, field).unit_inverse(field);
    scale(q, m, field);
}
