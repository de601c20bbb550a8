// What the first k words of base blocks solve to, with a base matrix of k rows.
#![tactic(auto)]

ghost use Rattle.std.specs.Prelude.{◌≡◌, ◌/◌, length};
ghost use Rattle.residue.specs.Chosen.{chosen};
ghost use Rattle.base_columns.specs.Steps.{BlocksLent, solved_blocks};

use base_matrix::adjugate;
use residue::{Field, Residue};

// Each k words of out times the matrix in m, in their place.
fn solve_parts(k: usize, m: &[u32], out: &mut [u32], field: Field)
    requires { BlocksLent (chosen field) k m.now out.old }
    ensures { out.new ≡ solved_blocks (chosen field) k m.now out.old }
{
    for start in (0..out.len()).step_by(k) {
        let end = start + k;
        base_matrix::solve(m, &mut out[start..end], field);
    }
}

// A matrix of one word is a factor of all words.
pub fn solve_blocks(k: usize, m: &[u32], out: &mut [u32], field: Field)
    requires { BlocksLent (chosen field) k m.now out.old }
    ensures { out.new ≡ solved_blocks (chosen field) k m.now out.old }
{
    if k == 1 {
        adjugate::scale(Residue::new(m[0], field), out, field);
    } else {
        solve_parts(k, m, out, field);
    }
}
