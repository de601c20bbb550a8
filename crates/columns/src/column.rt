// Loops over the places of one column.
ghost use Rattle.std.specs.Prelude.{◌≡◌, ◌*◌, ◌<◌, ◌≤◌, length};
ghost use Rattle.algebra.specs.Tests.{all_same};
ghost use Rattle.foldable.specs.Every.{every};
ghost use Rattle.residue.specs.Chosen.{chosen};
ghost use Rattle.undo.specs.Steps.{longest_base};
ghost use Rattle.columns.specs.Steps.{crossed, CrossLent};

use residue::Field;
use words::entry;

// The halves l and r of w become l + t r and l + t2 r, with the diagonals in every c-th place of t and t2 from a on.
pub fn cross(n: usize, a: usize, c: usize, t: &[u32], t2: &[u32], w: &mut [u32], field: Field)
    requires { CrossLent (chosen field) n a c t.now t2.now w.old }
    ensures { w.new ≡ crossed (chosen field) (every 0 c a n t.now) (every 0 c a n t2.now) w.old }
{
    let mut p = a;
    for i in 0..n {
        let k = n + i;
        let l = w[i];
        let r = w[k];
        let u = entry::plus_product(l, t[p], r, field);
        let v = entry::plus_product(l, t2[p], r, field);
        w[i] = u;
        w[k] = v;
        p += c;
    }
}

// Whether the words of w are those in every c-th place of the block from j on.
pub fn same_places(j: usize, c: usize, block: &[u32], w: &[u32]) -> bool
    requires { (j < c) × (c ≤ longest_base) × (length block.now ≡ c * length w.now) }
    ensures { result ≡ all_same w.now (every 0 c j (length w.now) block.now) }
{
    let mut ok = true;
    let mut p = j;
    for i in 0..w.len() {
        ok &= w[i] == block[p];
        p += c;
    }
    ok
}
