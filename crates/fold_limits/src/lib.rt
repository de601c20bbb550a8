// Level, rate, k0 and lengths of a fold.
#![tactic(auto)]

ghost use Rattle.std.specs.Prelude.{◌≡◌, ◌&&◌};
ghost use Rattle.job.specs.Outcome.{outcome, require, ◌⨾◌};
ghost use Rattle.job.specs.Limits.{rate_ok};
ghost use Rattle.job.specs.Sizes.{k0_ok, base_size};
ghost use Rattle.fold_limits.specs.Limits.{level_ok, fold_limits, lengths_ok};

use job::{Parameters, Refusal, sizes};

// A block of level 0 cannot be folded.
#[tactic(auto, unfolding(crate::specs::Limits::level_ok))]
fn level_ok(p: Parameters) -> bool
    ensures { result ≡ level_ok p.k0 p.depth }
{
    p.depth >= 1 && sizes::depth_ok(p)
}

fn limits_ok(p: Parameters) -> bool
    ensures { result ≡ fold_limits p.depth p.rate p.k0 }
{
    level_ok(p) && job::rate_ok(p.rate) && sizes::k0_ok(p)
}

// Whether the record is legal and the slices have the lengths that it gives.
#[tactic(auto, unfolding(crate::specs::Limits::lengths_ok), using(crate::proofs::Levels::legal))]
pub fn lengths_ok(p: Parameters, t: usize, t2: usize, block: usize, out: usize) -> bool
    ensures { result ≡ (fold_limits p.depth p.rate p.k0 && lengths_ok p.depth (base_size p.rate p.k0) t t2 block out) }
{
    if !limits_ok(p) {
        return false;
    }
    let n = sizes::block_len(p, p.depth - 1);
    t == n && t2 == n && block == sizes::block_len(p, p.depth) && out == n
}

// 1, 2 and 13, in this order.
pub fn judge_limits(p: Parameters) -> Result<(), Refusal>
    ensures { outcome result ≡ require (level_ok p.k0 p.depth) 1 ⨾ require (rate_ok p.rate) 2 ⨾ require (k0_ok p.k0) 13 }
{
    job::require(level_ok(p), Refusal::Depth)?;
    job::require(job::rate_ok(p.rate), Refusal::Rate)?;
    job::require(sizes::k0_ok(p), Refusal::BaseWords)
}
