// Determinants of two and of three rows of residues.
ghost use Rattle.std.specs.Prelude.{◌≡◌};
ghost use Rattle.residue.specs.Elements.{word, Low};
ghost use Rattle.residue.specs.Chosen.{chosen};
ghost use Rattle.cofactor.specs.Cofactors.{LowTriple, two_rows, three_rows};

use residue::{Field, Residue};

// A row of three.
#[derive(Clone, Copy, Debug, PartialEq, Eq)]
pub struct RowOfThree {
    pub a: Residue,
    pub b: Residue,
    pub c: Residue,
}

// Of the rows (a, b) and (c, d).
fn det2(a: Residue, b: Residue, c: Residue, d: Residue, field: Field) -> Residue
    requires { Low (chosen field) a × Low (chosen field) b × Low (chosen field) c × Low (chosen field) d }
    ensures { result.0 ≡ word (chosen field) (two_rows (chosen field) a b c d) }
{
    let p = a.times(d, field);
    let q = b.times(c, field);
    p.minus(q, field)
}

// Of the rows x, y and z, along x.
pub fn det3(x: RowOfThree, y: RowOfThree, z: RowOfThree, field: Field) -> Residue
    requires { LowTriple (chosen field) x × LowTriple (chosen field) y × LowTriple (chosen field) z }
    ensures { result.0 ≡ word (chosen field) (three_rows (chosen field) x y z) }
{
    let p = det2(y.b, y.c, z.b, z.c, field);
    let q = det2(y.a, y.c, z.a, z.c, field);
    let r = det2(y.a, y.b, z.a, z.b, field);
    let s = x.a.times(p, field);
    let t = x.b.times(q, field);
    s.minus(t, field).plus_product(x.c, r, field)
}
