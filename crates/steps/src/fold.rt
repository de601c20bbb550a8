// What is left of a message, folded by a challenge.
ghost use Rattle.std.specs.Prelude.{◌≡◌};
ghost use Rattle.residue.specs.Elements.{elem};
ghost use Rattle.residue.specs.Chosen.{chosen};
ghost use Rattle.steps.specs.Steps.{FoldInput, folded_front};

use residue::{Field, Residue};
use words::entry;

// The front half of m becomes left + a right.
pub fn fold(a: Residue, m: &mut [u32], field: Field)
    requires { FoldInput (chosen field) a m.old }
    ensures { m.new ≡ folded_front (chosen field) (elem (chosen field) a) m.old }
{
    let half = m.len() / 2;
    for j in 0..half {
        let k = half + j;
        m[j] = entry::plus_scaled(m[j], a, m[k], field);
    }
}
