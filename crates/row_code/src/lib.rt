// Encoding with one base row of at most 16 words. What the passes divide by is multiplied into the row before them, once:
// the base blocks are made in loose words too, and at the end words are only settled.
#![tactic(auto)]

ghost use Rattle.std.specs.Prelude.{◌≡◌, ◌+◌, ◌≤◌, length, take};
ghost use Rattle.algebra.specs.WordLists.{Low as LowWords, elements, to_words};
ghost use Rattle.foldable.specs.Lift.{lift as lifted, spread as spreads};
ghost use Rattle.residue.specs.Elements.{P, F, el, elem, word, Low};
ghost use Rattle.residue.specs.Chosen.{chosen};
ghost use Rattle.residue.specs.Scale.{scale, scale_power};
ghost use Rattle.parameters.specs.Lent.{lent};
ghost use Rattle.code.specs.Encoding.{EncodeInput};
ghost use Rattle.passes.specs.Steps.{Scaled};
ghost use Rattle.code.specs.Steps.{times, SpreadInput};

use code::{lift, spread};
use residue::{Field, Residue};

// What the levels divide by, and the base blocks once more.
fn factor(depth: u32, field: Field) -> Residue
    ensures { result.0 ≡ word (chosen field) (scale_power field (depth + 1)) }
{
    let once = Residue::scale_power(1, field);
    Residue::scale_power(depth, field).times(once, field)
}

// The row times that, in the first words.
fn scaled_row(depth: u32, g: &[u32], field: Field) -> [u32; 16]
    requires { LowWords (P (chosen field)) g.now × (length g.now ≤ 16) }
    ensures { (length result ≡ 16) × (take (length g.now) result ≡ to_words (chosen field) (times (chosen field) (scale_power field (depth + 1)) (elements (chosen field) g.now))) }
{
    let f = factor(depth, field);
    let n = g.len();
    let mut row = [0u32; 16];
    spread::scale(f, g, &mut row[..n], field);
    row
}

// a times the row, divided by scale.
fn scale_loose(a: Residue, row: &[u32], out: &mut [u32], field: Field)
    requires { Low (chosen field) a × (LowWords (P (chosen field)) row.now) × (length out.old ≡ length row.now) }
    ensures { Scaled (chosen field) (el (chosen field) (scale field)) (times (chosen field) (elem (chosen field) a) (elements (chosen field) row.now)) out.new }
{
    for i in 0..row.len() {
        out[i] = Residue::times_loose(row[i], a, field);
    }
}

// The base blocks, divided by scale.
fn spread_in(m: &[u32], row: &[u32], out: &mut [u32], field: Field)
    requires { SpreadInput (chosen field) m.now row.now out.old }
    ensures { Scaled (chosen field) (el (chosen field) (scale field)) (spreads (F (chosen field)) (elements (chosen field) row.now) (elements (chosen field) m.now)) out.new }
{
    let c = row.len();
    let mut b = 0;
    for i in 0..m.len() {
        let e = b + c;
        scale_loose(Residue::new(m[i], field), row, &mut out[b..e], field);
        b = e;
    }
}

// The same, with the field as a constant: the compiler makes loops for each field. A function of its own, since of a slice that a closure
// writes nothing is known afterwards.
fn spread_loose(m: &[u32], row: &[u32], out: &mut [u32], field: Field)
    requires { SpreadInput (chosen field) m.now row.now out.old }
    ensures { Scaled (chosen field) (el (chosen field) (scale field)) (spreads (F (chosen field)) (elements (chosen field) row.now) (elements (chosen field) m.now)) out.new }
{
    match field {
        Field::First => spread_in(m, row, out, Field::First),
        Field::Second => spread_in(m, row, out, Field::Second),
    }
}

pub fn encode_row(
    depth: u32,
    g: &[u32],
    t: &[u32],
    t2: &[u32],
    m: &[u32],
    out: &mut [u32],
    field: Field,
)
    requires { EncodeInput (chosen field) depth g.now t.now t2.now m.now (length out.old) × (length g.now ≤ 16) }
    ensures { out.new ≡ to_words (chosen field) (lifted (F (chosen field)) (lent (chosen field) g.now t.now t2.now) depth (spreads (F (chosen field)) (elements (chosen field) g.now) (elements (chosen field) m.now))) }
{
    let row = scaled_row(depth, g, field);
    let n = g.len();
    spread_loose(m, &row[..n], out, field);
    lift::lift_loose(depth, g, t, t2, out, field);
    lift::settle(out, field);
}
