// How a variable that is put in comes to the weight.
ghost use Rattle.std.specs.Prelude.{◌≡◌};
ghost use Rattle.residue.specs.Elements.{word, elem, Low};
ghost use Rattle.residue.specs.Chosen.{chosen};
ghost use Rattle.steps.specs.Steps.{weighed};

use polynomial::eq;
use residue::{Field, Residue};

// w times eq of z and x.
pub fn weigh(w: Residue, z: Residue, x: Residue, field: Field) -> Residue
    requires { Low (chosen field) w × Low (chosen field) z × Low (chosen field) x }
    ensures { result.0 ≡ word (chosen field) (weighed (chosen field) (elem (chosen field) w) (elem (chosen field) z) (elem (chosen field) x)) }
{
    w.times(eq::factor(z, x, field), field)
}
