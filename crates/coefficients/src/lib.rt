// From a table of clearances to the coefficients of its polynomial.
#![tactic(auto)]

ghost use Rattle.std.specs.Prelude.{◌≡◌, true, map, length};
ghost use Rattle.algebra.specs.Tests.{all};
ghost use Rattle.algebra.specs.WordLists.{elements, to_words};
ghost use Rattle.multilinear.specs.Table.{coefficients};
ghost use Rattle.job.specs.Outcome.{outcome};
ghost use Rattle.residue.specs.Elements.{K};
ghost use Rattle.residue.specs.Chosen.{chosen};
ghost use Rattle.clearance.specs.Clearances.{in_range, residue_of};
ghost use Rattle.table_length.specs.Depth.{is_power, exponent};
ghost use Rattle.coefficients.specs.Job.{judge_table, ToCoefficients};

use clearance::slices;
use job::{Parameters, Refusal, sizes};
use residue::Field;
use transform::Way;

// Depth and rate are not asked.
fn judge(p: Parameters, clearances: &[i32], len: usize, field: Field) -> Result<(), Refusal>
    ensures { outcome result ≡ judge_table (chosen field) p.k0 clearances.now len }
{
    job::require(table_length::table_ok(p, clearances.len()), Refusal::Depth)?;
    job::require(sizes::k0_ok(p), Refusal::BaseWords)?;
    job::require(len == clearances.len(), Refusal::Length)?;
    job::require(slices::all_in_range(clearances, field), Refusal::Clearance)
}

fn find(clearances: &[i32], message: &mut [u32], field: Field)
    requires power { is_power (length clearances.now) ≡ true }
    requires same { length message.old ≡ length clearances.now }
    requires range { all (in_range (chosen field)) clearances.now ≡ true }
    ensures { message.new ≡ to_words (chosen field) (coefficients (K (chosen field)) (exponent (length clearances.now)) (elements (chosen field) (map (residue_of (chosen field)) clearances.now))) }
{
    let depth = table_length::depth_of(clearances.len());
    slices::to_words(clearances, message, field);
    transform::transform(Way::ToCoefficients, depth, message, field);
}

pub fn table_to_coefficients(
    p: Parameters,
    clearances: &[i32],
    message: &mut [u32],
    field: Field,
) -> Result<(), Refusal>
    ensures { ToCoefficients (chosen field) p.k0 clearances.now message.old message.new result }
{
    judge(p, clearances, message.len(), field)?;
    find(clearances, message, field);
    Ok(())
}
