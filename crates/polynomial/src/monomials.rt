// The monomials of the low variables: in place b the product of those variables whose bit in b is set.
ghost use Rattle.std.specs.Prelude.{◌≡◌, length};
ghost use Rattle.algebra.specs.WordLists.{Low};
ghost use Rattle.residue.specs.Elements.{P};
ghost use Rattle.residue.specs.Chosen.{chosen};
ghost use Rattle.polynomial.specs.Monomials.{Monomials, Extensible, Extended};

use residue::Field;
use words::entry;

// How many variables are low, where there are as many: their monomials fill 64 words.
pub const LOW: usize = 6;

// One variable more: the monomials with x follow those without it.
fn extend(w: &mut [u32], size: usize, x: u32, field: Field)
    requires { Extensible (chosen field) size x w.old }
    ensures { Extended (chosen field) size x w.old w.new }
{
    for b in 0..size {
        w[size + b] = entry::times(w[b], x, field);
    }
}

// The words past those of the point's variables are left as they are.
pub fn fill(w: &mut [u32], z: &[u32], field: Field)
    requires { (length w.old ≡ 64) × Low (P (chosen field)) z.now }
    ensures { Monomials (chosen field) w.new z.now }
{
    let k = z.len().min(LOW);
    w[0] = 1;
    let mut size = 1;
    for i in 0..k {
        extend(w, size, z[i], field);
        size += size;
    }
}
