// Folding a block by one level.
#![tactic(auto)]

ghost use Rattle.std.specs.Prelude.{◌≡◌, ◌&&◌, [], ◌∷◌};
ghost use Rattle.job.specs.Outcome.{outcome, unless, ◌⨾◌};
ghost use Rattle.residue.specs.Chosen.{chosen};
ghost use Rattle.words.specs.Scans.{all_below, all_differ};
ghost use Rattle.places.specs.Inputs.{in_order, judge_words, no_equal, Short};
ghost use Rattle.fold.specs.Job.{judge_folding, Folded};

use job::{Parameters, Refusal};
use places::inputs;
use residue::{Field, Residue};
use words::scan;
use words::scan::PairScan;

// Of the diagonals, where the lengths are right.
fn scan_diagonals(lengths: bool, t: &[u32], t2: &[u32], field: Field) -> PairScan
    ensures { (result.below ≡ (lengths && (all_below (chosen field) t.now && all_below (chosen field) t2.now))) × (result.apart ≡ (lengths && all_differ t.now t2.now)) }
{
    if !lengths {
        return PairScan {
            below: false,
            apart: false,
        };
    }
    scan::scan_pair(t, t2, field)
}

// 4, then 6. Only where a flag is not set a place is looked for. A challenge counts as r, of one word.
fn judge_places(
    t: &[u32],
    t2: &[u32],
    block: &[u32],
    challenge: u32,
    words: bool,
    apart: bool,
    field: Field,
) -> Result<(), Refusal>
    requires { Short [] t.now t2.now block.now [] [] (challenge ∷ []) [] }
    ensures { outcome result ≡ unless words (judge_words (chosen field) (in_order [] t.now t2.now block.now [] [] (challenge ∷ []) [])) ⨾ unless apart (no_equal t.now t2.now) }
{
    let none = &t[..0];
    inputs::judge_without_row(words, t, t2, block, none, &[challenge], field)?;
    inputs::judge_diagonals(apart, t, t2)
}

// The first refusal that is due. Nothing is read where the lengths are not right.
#[tactic(auto, using(crate::proofs::Judged::limits_due, crate::proofs::Judged::limits_passed, crate::proofs::Judged::lengths_due))]
fn judge(
    p: Parameters,
    t: &[u32],
    t2: &[u32],
    block: &[u32],
    challenge: u32,
    out: usize,
    field: Field,
) -> Result<(), Refusal>
    ensures { outcome result ≡ judge_folding (chosen field) p.depth p.rate p.k0 t.now t2.now block.now challenge out }
{
    let lengths = fold_limits::lengths_ok(p, t.len(), t2.len(), block.len(), out);
    let diagonals = scan_diagonals(lengths, t, t2, field);
    let words = diagonals.below
        && scan::all_below(block, field)
        && challenge < Residue::modulus(field);
    fold_limits::judge_limits(p)?;
    job::require(lengths, Refusal::Length)?;
    judge_places(t, t2, block, challenge, words, diagonals.apart, field)
}

// The record's depth is the upper level: t and t2 are the diagonals of the level below it, block is a block of it, and out takes the block below.
pub fn fold(
    p: Parameters,
    t: &[u32],
    t2: &[u32],
    block: &[u32],
    challenge: u32,
    out: &mut [u32],
    field: Field,
) -> Result<(), Refusal>
    ensures { Folded (chosen field) p.depth p.rate p.k0 t.now t2.now block.now challenge out.old result out.new }
{
    judge(p, t, t2, block, challenge, out.len(), field)?;
    lines::fold_block(t, t2, block, Residue::new(challenge, field), out, field);
    Ok(())
}
