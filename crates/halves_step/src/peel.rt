// The right half of a message peeled off a block of halves u and v: with r the codeword of that half, u - t r has to be the codeword of the
// left half, and then v is (u - t r) + t2 r.
ghost use Rattle.std.specs.Prelude.{◌+◌, length, take, drop};
ghost use Rattle.residue.specs.Chosen.{chosen};
ghost use Rattle.halves_step.specs.Steps.{LentPeel, FrontPeel, Peeled};

use crate::place;
use residue::Field;

// Of a block that is lent, with r in out: out becomes u - t r. Whether that gives v.
pub fn peel_lent(t: &[u32], t2: &[u32], block: &[u32], out: &mut [u32], field: Field) -> bool
    requires { LentPeel (chosen field) t.now t2.now block.now out.old }
    ensures { Peeled (chosen field) t.now t2.now (take (length t.now) block.now) (drop (length t.now) block.now) out.old result out.new }
{
    let n = t.len();
    let mut ok = true;
    for i in 0..n {
        let k = n + i;
        let p = place::peel_at(block[i], block[k], t[i], t2[i], out[i], field);
        ok &= p.same;
        out[i] = p.left;
    }
    ok
}

// Of a block in front of w, with r behind it: u becomes u - t r. Whether that gives v. A loop of its own, since it writes the block that the
// one above only reads.
pub fn peel_front(t: &[u32], t2: &[u32], w: &mut [u32], field: Field) -> bool
    requires { FrontPeel (chosen field) t.now t2.now w.old }
    ensures { Peeled (chosen field) t.now t2.now (take (length t.now) w.old) (take (length t.now) (drop (length t.now) w.old)) (drop (length t.now + length t.now) w.old) result (take (length t.now) w.new) }
{
    let n = t.len();
    let (u, behind) = w.split_at_mut(n);
    let (v, r) = behind.split_at(n);
    let mut ok = true;
    for i in 0..n {
        let p = place::peel_at(u[i], v[i], t[i], t2[i], r[i], field);
        ok &= p.same;
        u[i] = p.left;
    }
    ok
}
