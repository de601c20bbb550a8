// What is judged of the record, of base matrix and diagonals.
ghost use Rattle.std.specs.Prelude.{◌≡◌, ◌&&◌, ◌≤◌, length};
ghost use Rattle.residue.specs.Chosen.{chosen};
ghost use Rattle.job.specs.Outcome.{outcome, unless, ◌⨾◌};
ghost use Rattle.places.specs.Inputs.{max_words, no_equal};
ghost use Rattle.parameters.specs.Parameters.{AllSized};
ghost use Rattle.base_matrix.specs.Inverting.{base_ok};
ghost use Rattle.job.specs.Sizes.{limits, in_limits, base_size};
ghost use Rattle.base_parameters.specs.Parameters.{row_lengths, legal_base, judge_inputs, Flagged, BaseLent};

use job::{Parameters, Refusal, sizes};
use places::inputs;
use places::inputs::Inputs;
use residue::Field;

// What a job's own tests have found, before any refusal is given.
#[derive(Clone, Copy, Debug, PartialEq, Eq)]
pub struct Flags {
    // The record is legal, and all slices have the lengths that it gives.
    pub lengths: bool,
    // All words are below the modulus, where all lengths are right.
    pub words: bool,
    // T and T' differ in every place, where all lengths are right.
    pub apart: bool,
}

// Whether the record is legal and g, t and t2 have the lengths that it gives.
#[tactic(auto, unfolding(crate::specs::Parameters::row_lengths))]
pub fn lengths_ok(p: Parameters, g: usize, t: usize, t2: usize) -> bool
    ensures { result ≡ (in_limits p.depth p.rate p.k0 && row_lengths p.depth p.rate p.k0 g t t2) }
{
    if !sizes::in_limits(p) {
        return false;
    }
    let n = sizes::diagonals_len(p, p.depth);
    g == sizes::row_len(p) && t == n && t2 == n
}

// 1, 2 and 13: depth, rate and k0, in this order.
pub fn judge_limits(p: Parameters) -> Result<(), Refusal>
    ensures { outcome result ≡ limits p.depth p.rate p.k0 }
{
    job::require(sizes::depth_ok(p), Refusal::Depth)?;
    job::require(job::rate_ok(p.rate), Refusal::Rate)?;
    job::require(sizes::k0_ok(p), Refusal::BaseWords)
}

// 5. One row names its first zero, more rows the index 0.
fn judge_base(p: Parameters, g: &[u32], field: Field) -> Result<(), Refusal>
    requires { BaseLent (chosen field) p.depth p.rate p.k0 g.now }
    ensures { outcome result ≡ legal_base (chosen field) p.k0 (base_size p.rate p.k0) g.now }
{
    if p.k0 == 1 {
        return inputs::judge_row(g);
    }
    job::require(
        base_matrix::base_ok(p.k0 as usize, sizes::base_len(p), g, field),
        Refusal::BaseRow(0),
    )
}

// 5, then 6.
fn judge_legal(
    p: Parameters,
    g: &[u32],
    t: &[u32],
    t2: &[u32],
    apart: bool,
    field: Field,
) -> Result<(), Refusal>
    requires { BaseLent (chosen field) p.depth p.rate p.k0 g.now × (length t.now ≤ max_words) }
    ensures { outcome result ≡ legal_base (chosen field) p.k0 (base_size p.rate p.k0) g.now ⨾ unless apart (no_equal t.now t2.now) }
{
    judge_base(p, g, field)?;
    inputs::judge_diagonals(apart, t, t2)
}

// Whether nothing is due, by the flags and one look at the base matrix.
fn nothing_due(p: Parameters, g: &[u32], flags: Flags, field: Field) -> bool
    requires { Flagged (chosen field) p.rate p.k0 g.now flags.lengths flags.words }
    ensures { result ≡ (in_limits p.depth p.rate p.k0 && (((flags.lengths && flags.words) && flags.apart) && base_ok (chosen field) p.k0 (base_size p.rate p.k0) g.now)) }
{
    if !sizes::in_limits(p) {
        return false;
    }
    flags.lengths & flags.words & flags.apart
        && base_matrix::base_ok(p.k0 as usize, sizes::base_len(p), g, field)
}

// What is due, in its order.
fn first_due(p: Parameters, lent: &Inputs, flags: Flags, field: Field) -> Result<(), Refusal>
    requires { AllSized flags.lengths lent.now × Flagged (chosen field) p.rate p.k0 lent.now.g.now flags.lengths flags.words }
    ensures { outcome result ≡ judge_inputs (chosen field) p.depth p.rate p.k0 lent.now flags }
{
    judge_limits(p)?;
    job::require(flags.lengths, Refusal::Length)?;
    inputs::judge_words(flags.words, lent, field)?;
    judge_legal(p, lent.g, lent.t, lent.t2, flags.apart, field)
}

// The refusals 1 to 6 and 13, by a job's own flags. A call that is not refused asks nothing else but the base matrix, once.
pub fn judge(p: Parameters, lent: &Inputs, flags: Flags, field: Field) -> Result<(), Refusal>
    requires { AllSized flags.lengths lent.now × Flagged (chosen field) p.rate p.k0 lent.now.g.now flags.lengths flags.words }
    ensures { outcome result ≡ judge_inputs (chosen field) p.depth p.rate p.k0 lent.now flags }
{
    if nothing_due(p, lent.g, flags, field) {
        return Ok(());
    }
    first_due(p, lent, flags, field)
}
