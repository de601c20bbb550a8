// The first k columns of a base matrix of k rows, for k = 1, 2 and 4: their inverse, what it solves, and whether a base matrix is legal.
#![tactic(auto)]

ghost use Rattle.std.specs.Prelude.{◌≡◌, ◌≤◌, length, take, get_or};
ghost use Rattle.residue.specs.Chosen.{chosen};
ghost use Rattle.cofactor.specs.Rows.{Lent};
ghost use Rattle.base_matrix.specs.Inverting.{Inverts, SolveLent, solved, BaseOk};

use residue::Field;

pub mod adjugate;
pub mod product;

// The inverse, row i at the places from 4 i on; zeros where there is none.
#[derive(Clone, Copy)]
pub struct Inverted {
    pub singular: bool,
    pub m: [u32; 16],
}

// g is k rows of n words, one after another. The determinant is the first row times the adjugate's first column.
pub fn invert(k: usize, n: usize, g: &[u32], field: Field) -> Inverted
    requires { Lent (chosen field) k n g.now }
    ensures { Inverts (chosen field) k n g.now result }
{
    let mut m = adjugate::adjugate(k, n, g, field);
    let d = product::product_at(&g[..k], &m, 0, field);
    if d == 0 {
        return Inverted {
            singular: true,
            m: [0; 16],
        };
    }
    adjugate::divide(d, &mut m, field);
    Inverted { singular: false, m }
}

// Word i of b, and 0 behind its end.
fn word_or_zero(b: &[u32], i: usize) -> u32
    ensures { result ≡ get_or b.now i 0 }
{
    if i < b.len() {
        return b[i];
    }
    0
}

// At most four words, with zeros behind them: one by one, since a copy of a length that is not known would be a call.
fn four_words(b: &[u32]) -> [u32; 4]
    requires { length b.now ≤ 4 }
    ensures { (length result ≡ 4) × (take (length b.now) result ≡ b.now) }
{
    [
        word_or_zero(b, 0),
        word_or_zero(b, 1),
        word_or_zero(b, 2),
        word_or_zero(b, 3),
    ]
}

// The k words of b times the matrix in m, in their place.
pub fn solve(m: &[u32], b: &mut [u32], field: Field)
    requires { SolveLent (chosen field) m.now b.old }
    ensures { b.new ≡ solved (chosen field) m.now b.old }
{
    let k = b.len();
    let old = four_words(b);
    product::times_into(&old[..k], m, b, field);
}

// With one row, whether no word is 0; with more, whether the first columns have an inverse.
pub fn base_ok(k: usize, n: usize, g: &[u32], field: Field) -> bool
    requires { Lent (chosen field) k n g.now }
    ensures { BaseOk (chosen field) k n g.now result }
{
    if k == 1 {
        return words::scan::none_zero(g);
    }
    let r = invert(k, n, g, field);
    !r.singular
}
