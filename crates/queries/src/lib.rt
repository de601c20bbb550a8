// The one place where a query list is judged.
#![tactic(auto)]

ghost use Rattle.std.specs.Prelude.{◌≡◌, true};
ghost use Rattle.job.specs.Outcome.{outcome};
ghost use Rattle.job.specs.Sizes.{in_limits, base_size};
ghost use Rattle.queries.specs.Queries.{queries_ok, judge_queries};

use job::{Parameters, Refusal, sizes};
use words::scan;

pub mod distinct;

pub const MAX_QUERIES: usize = 256;

// None at depth 0; above, from 1 to the most, each a place of the block below the top one.
#[tactic(auto, using(crate::proofs::Asked::queries_none, crate::proofs::Asked::queries_some))]
pub fn queries_ok(p: Parameters, queries: &[u32]) -> bool
    requires { in_limits p.depth p.rate p.k0 ≡ true }
    ensures { result ≡ queries_ok p.depth (base_size p.rate p.k0) queries.now }
{
    if p.depth == 0 {
        return queries.len() == 0;
    }
    let places = sizes::block_len(p, p.depth - 1);
    1 <= queries.len() && queries.len() <= MAX_QUERIES && scan::all_under(queries, places as u32)
}

// 7, then 11. Only a list that 7 passes is searched for a place that stands twice, so the search has at most MAX_QUERIES words.
#[tactic(auto, unfolding(crate::specs::Queries::judge_queries))]
pub fn judge(p: Parameters, queries: &[u32]) -> Result<(), Refusal>
    requires { in_limits p.depth p.rate p.k0 ≡ true }
    ensures { outcome result ≡ judge_queries p.depth (base_size p.rate p.k0) queries.now }
{
    job::require(queries_ok(p, queries), Refusal::Queries)?;
    job::require(distinct::distinct(queries), Refusal::Repeated)
}
