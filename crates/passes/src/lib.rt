// Passes over blocks in loose words: below twice the modulus, and divided by scale once for each pass.
#![tactic(auto)]

ghost use Rattle.std.specs.Prelude.{◌≤◌};
ghost use Rattle.algebra.specs.WordLists.{elements};
ghost use Rattle.foldable.specs.Lift.{lift as lifted};
ghost use Rattle.foldable.specs.Sweep.{across, sweep as swept};
ghost use Rattle.job.specs.Limits.{max_depth};
ghost use Rattle.residue.specs.Elements.{F, el};
ghost use Rattle.residue.specs.Chosen.{chosen};
ghost use Rattle.residue.specs.Scale.{scale, scale_power};
ghost use Rattle.parameters.specs.Lent.{lent};
ghost use Rattle.passes.specs.Steps.{Scaled, SweepInput, LooseInput};

use residue::Field;
use words::entry;

// The halves l and r of out become l + t r and l + t2 r, divided by scale.
pub fn cross(t: &[u32], t2: &[u32], out: &mut [u32], field: Field)
    requires { SweepInput (chosen field) 1 t.now t2.now out.old }
    ensures { Scaled (chosen field) (el (chosen field) (scale field)) (across (F (chosen field)) (elements (chosen field) t.now) (elements (chosen field) t2.now) (elements (chosen field) out.old)) out.new }
{
    let n = t.len();
    for i in 0..n {
        let k = n + i;
        let l = out[i];
        let r = entry::ready(out[k], field);
        let a = entry::plus_product_loose(l, t[i], r, field);
        let b = entry::plus_product_loose(l, t2[i], r, field);
        out[i] = a;
        out[k] = b;
    }
}

// That in each of count blocks.
fn sweep_in(count: usize, t: &[u32], t2: &[u32], out: &mut [u32], field: Field)
    requires { SweepInput (chosen field) count t.now t2.now out.old }
    ensures { Scaled (chosen field) (el (chosen field) (scale field)) (swept (F (chosen field)) (elements (chosen field) t.now) (elements (chosen field) t2.now) count (elements (chosen field) out.old)) out.new }
{
    let n = t.len();
    let mut b = 0;
    for i in 0..count {
        let e = b + n + n;
        cross(t, t2, &mut out[b..e], field);
        b = e;
    }
}

// The same, with the field as a constant: the compiler makes loops for each field. A function of its own, since of a slice that a closure
// writes nothing is known afterwards.
fn sweep(count: usize, t: &[u32], t2: &[u32], out: &mut [u32], field: Field)
    requires { SweepInput (chosen field) count t.now t2.now out.old }
    ensures { Scaled (chosen field) (el (chosen field) (scale field)) (swept (F (chosen field)) (elements (chosen field) t.now) (elements (chosen field) t2.now) count (elements (chosen field) out.old)) out.new }
{
    match field {
        Field::First => sweep_in(count, t, t2, out, Field::First),
        Field::Second => sweep_in(count, t, t2, out, Field::Second),
    }
}

// One level after the other, each over the whole block.
pub fn low_levels(depth: u32, g: &[u32], t: &[u32], t2: &[u32], out: &mut [u32], field: Field)
    requires { (depth ≤ max_depth) × LooseInput (chosen field) depth g.now t.now t2.now out.old }
    ensures { Scaled (chosen field) (scale_power field depth) (lifted (F (chosen field)) (lent (chosen field) g.now t.now t2.now) depth (elements (chosen field) out.old)) out.new }
{
    let mut count = job::message_len(depth);
    let mut n = g.len();
    let mut off = 0;
    for level in 0..depth {
        let end = off + n;
        count /= 2;
        sweep(count, &t[off..end], &t2[off..end], out, field);
        off = end;
        n += n;
    }
}
