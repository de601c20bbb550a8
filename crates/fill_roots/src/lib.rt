// Filling by rule as a job: it answers on any input.
#![tactic(auto)]

ghost use Rattle.std.specs.Prelude.{◌≡◌, true};
ghost use Rattle.job.specs.Outcome.{outcome, done, ◌⨾◌};
ghost use Rattle.job.specs.Limits.{rate_ok};
ghost use Rattle.fill_roots.specs.Filling.{exponent as exponent_of, exponent_found, judge_filling, RootsFilled};

use base_parameters::judging;
use job::{Parameters, Refusal, sizes};

// Of a legal rate, where it is a power of two.
fn exponent(rate: u32) -> Option<u32>
    requires { rate_ok rate ≡ true }
    ensures { result ≡ exponent_found rate }
{
    match rate {
        2 => Some(1),
        4 => Some(2),
        8 => Some(3),
        16 => Some(4),
        _ => None,
    }
}

// By the lengths alone: the slices are only written. The rule is of one base row, so the depth is judged as for it, whatever k0 is. Gives the rate's exponent.
fn judge(p: Parameters, g: usize, t: usize, t2: usize) -> Result<u32, Refusal>
    ensures { outcome result ≡ judge_filling p.depth p.rate p.k0 g t t2 ⨾ done (exponent_of p.rate) }
{
    let one = Parameters { k0: 1, ..p };
    job::require(sizes::depth_ok(one), Refusal::Depth)?;
    job::require(job::rate_ok(p.rate), Refusal::Rate)?;
    job::require(p.k0 == 1, Refusal::BaseWords)?;
    job::require(judging::lengths_ok(one, g, t, t2), Refusal::Length)?;
    exponent(p.rate).ok_or(Refusal::NoPowerOfTwo)
}

pub fn fill_roots(
    p: Parameters,
    g: &mut [u32],
    t: &mut [u32],
    t2: &mut [u32],
) -> Result<(), Refusal>
    ensures { RootsFilled p.depth p.rate p.k0 g.old t.old t2.old result g.new t.new t2.new }
{
    let e = judge(p, g.len(), t.len(), t2.len())?;
    root_rows::fill(p.depth, e, g, t, t2);
    Ok(())
}
