// The cofactors of the first k columns of a base matrix of k rows, for k = 1, 2 and 4.
#![tactic(auto)]

ghost use Rattle.std.specs.Prelude.{◌≡◌, ◌+◌, ◌*◌, ◌<◌, ◌≤◌, length};
ghost use Rattle.algebra.specs.WordLists.{Low};
ghost use Rattle.residue.specs.Elements.{P, word};
ghost use Rattle.residue.specs.Chosen.{chosen};
ghost use Rattle.cofactor.specs.Cofactors.{skip as skipped, minor_at, cofactor_at, PlaceLent, RowOf};

use crate::three::RowOfThree;
use residue::{Field, Residue};

pub mod three;

// Where place r of a list without its place i stands in the list.
fn skip(i: usize, r: usize) -> usize
    requires { r < 3 }
    ensures { result ≡ skipped i r }
{
    if r < i { r } else { r + 1 }
}

// Row i without column j, of four columns.
fn row_of(n: usize, g: &[u32], i: usize, j: usize, field: Field) -> RowOfThree
    requires { (i * n + 4 ≤ length g.now) × Low (P (chosen field)) g.now }
    ensures { RowOf (chosen field) n g.now i j result }
{
    let at = i * n;
    let a = g[at + skip(j, 0)];
    let b = g[at + skip(j, 1)];
    let c = g[at + skip(j, 2)];
    RowOfThree {
        a: Residue::new(a, field),
        b: Residue::new(b, field),
        c: Residue::new(c, field),
    }
}

// The determinant without row i and column j, of four rows.
fn minor_of_four(n: usize, g: &[u32], i: usize, j: usize, field: Field) -> Residue
    requires { PlaceLent (chosen field) 4 n g.now i j }
    ensures { result.0 ≡ word (chosen field) (minor_at (chosen field) 4 n g.now i j) }
{
    let x = row_of(n, g, skip(i, 0), j, field);
    let y = row_of(n, g, skip(i, 1), j, field);
    let z = row_of(n, g, skip(i, 2), j, field);
    three::det3(x, y, z, field)
}

// What is left of two rows: one word. A function for both numbers of rows would be no plainer: of four a determinant of three is left.
fn minor_of_two(n: usize, g: &[u32], i: usize, j: usize, field: Field) -> Residue
    requires { PlaceLent (chosen field) 2 n g.now i j }
    ensures { result.0 ≡ word (chosen field) (minor_at (chosen field) 2 n g.now i j) }
{
    let at = skip(i, 0) * n + skip(j, 0);
    Residue::new(g[at], field)
}

fn minor(k: usize, n: usize, g: &[u32], i: usize, j: usize, field: Field) -> Residue
    requires { PlaceLent (chosen field) k n g.now i j }
    ensures { result.0 ≡ word (chosen field) (minor_at (chosen field) k n g.now i j) }
{
    match k {
        4 => minor_of_four(n, g, i, j, field),
        2 => minor_of_two(n, g, i, j, field),
        _ => Residue::ONE,
    }
}

// The determinant without row i and column j, with its sign.
pub fn cofactor(k: usize, n: usize, g: &[u32], i: usize, j: usize, field: Field) -> Residue
    requires { PlaceLent (chosen field) k n g.now i j }
    ensures { result.0 ≡ word (chosen field) (cofactor_at (chosen field) k n g.now i j) }
{
    let d = minor(k, n, g, i, j, field);
    if (i + j) % 2 == 0 {
        return d;
    }
    d.negated(field)
}
