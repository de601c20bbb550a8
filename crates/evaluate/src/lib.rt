// The job of evaluation: the value of the polynomial whose coefficients a message holds.
#![tactic(auto)]

ghost use Rattle.std.specs.Prelude.{◌≡◌, ◌&&◌};
ghost use Rattle.job.specs.Outcome.{outcome, require, ◌⨾◌};
ghost use Rattle.job.specs.Sizes.{k0_ok, depth_ok, size_ok};
ghost use Rattle.residue.specs.Chosen.{chosen};
ghost use Rattle.evaluate.specs.Evaluation.{evaluate_lengths, judge_evaluating, evaluation};

use job::{Parameters, Refusal, sizes};
use places::inputs;
use residue::Field;
use words::scan;

// A record that is not legal has no lengths.
#[tactic(auto, unfolding(crate::specs::Evaluation::evaluate_lengths))]
fn lengths_ok(p: Parameters, m: usize, z: usize) -> bool
    ensures { result ≡ (size_ok p.depth p.k0 && evaluate_lengths p.depth p.k0 m z) }
{
    sizes::size_ok(p) && m == sizes::message_len(p) && z == sizes::point_len(p)
}

// 1 and 13: the rate is not asked.
fn judge_size(p: Parameters) -> Result<(), Refusal>
    ensures { outcome result ≡ require (depth_ok p.k0 p.depth) 1 ⨾ require (k0_ok p.k0) 13 }
{
    job::require(sizes::depth_ok(p), Refusal::Depth)?;
    job::require(sizes::k0_ok(p), Refusal::BaseWords)
}

// A place is looked for only where the flag of all words is not set. A message counts as the block.
#[tactic(auto, using(crate::proofs::Judged::size_due, crate::proofs::Judged::size_passed, crate::proofs::Judged::lengths_due))]
fn judge(p: Parameters, m: &[u32], z: &[u32], field: Field) -> Result<(), Refusal>
    ensures { outcome result ≡ judge_evaluating (chosen field) p.depth p.k0 m.now z.now }
{
    judge_size(p)?;
    job::require(lengths_ok(p, m.len(), z.len()), Refusal::Length)?;
    let words = scan::all_below(m, field) && scan::all_below(z, field);
    let none = &m[..0];
    inputs::judge_without_row(words, none, none, m, z, none, field)
}

pub fn evaluate(p: Parameters, message: &[u32], point: &[u32], field: Field) -> Result<u32, Refusal>
    ensures { outcome result ≡ evaluation (chosen field) p.depth p.k0 message.now point.now }
{
    judge(p, message, point, field)?;
    Ok(polynomial::value(message, point, field).word())
}
