// A row vector times a matrix of as many rows and columns, whose rows are four words each.
ghost use Rattle.std.specs.Prelude.{◌≡◌};
ghost use Rattle.residue.specs.Elements.{word};
ghost use Rattle.residue.specs.Chosen.{chosen};
ghost use Rattle.base_matrix.specs.Inverting.{solved};
ghost use Rattle.base_matrix.specs.Steps.{product_at, ProductLent, TimesLent};

use residue::Field;
use words::entry;

// v times column j.
pub fn product_at(v: &[u32], m: &[u32], j: usize, field: Field) -> u32
    requires { ProductLent (chosen field) v.now m.now j }
    ensures { result ≡ word (chosen field) (product_at (chosen field) v.now m.now j) }
{
    let mut s = 0;
    for i in 0..v.len() {
        s = entry::plus_product(s, v[i], m[i * 4 + j], field);
    }
    s
}

pub fn times_into(v: &[u32], m: &[u32], out: &mut [u32], field: Field)
    requires { TimesLent (chosen field) v.now m.now out.old }
    ensures { out.new ≡ solved (chosen field) m.now v.now }
{
    for j in 0..v.len() {
        out[j] = product_at(v, m, j, field);
    }
}
