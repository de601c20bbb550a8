// What is judged before any check: all that is lent but the queries, then these.
ghost use Rattle.std.specs.Prelude.{◌≡◌};
ghost use Rattle.residue.specs.Chosen.{chosen};
ghost use Rattle.job.specs.Outcome.{outcome};
ghost use Rattle.verify.specs.Verifying.{judge_verifying};

use job::{Parameters, Refusal};
use residue::Field;

#[tactic(auto, unfolding(crate::specs::Verifying::judge_verifying))]
pub fn judge(
    p: Parameters,
    g: &[u32],
    t: &[u32],
    t2: &[u32],
    block: &[u32],
    z: &[u32],
    y: u32,
    r: &[u32],
    queries: &[u32],
    opening: &[u32],
    field: Field,
) -> Result<(), Refusal>
    ensures { outcome result ≡ judge_verifying (chosen field) p.depth p.rate p.k0 g.now t.now t2.now block.now z.now y r.now queries.now opening.now }
{
    opened::judge_opened(p, g, t, t2, block, z, y, r, opening, field)?;
    queries::judge(p, queries)
}
