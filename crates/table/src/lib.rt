// From the coefficients of a polynomial to its table of clearances.
#![tactic(auto)]

ghost use Rattle.std.specs.Prelude.{◌≡◌, true, length, replicate};
ghost use Rattle.algebra.specs.WordLists.{Low};
ghost use Rattle.job.specs.Outcome.{outcome};
ghost use Rattle.residue.specs.Elements.{P};
ghost use Rattle.residue.specs.Chosen.{chosen};
ghost use Rattle.table_length.specs.Depth.{is_power};
ghost use Rattle.table.specs.Job.{judge_message, table_of, ToTable};

use clearance::slices;
use job::{Parameters, Refusal, sizes};
use places::inputs;
use residue::Field;
use transform::Way;
use words::scan;

// The message counts as the block. One of its words is looked for only where a scan has found that there is one, and where the length has shown that
// each has an index. Depth and rate are not asked.
fn judge(p: Parameters, m: &[u32], table: usize, work: usize, field: Field) -> Result<(), Refusal>
    ensures { outcome result ≡ judge_message (chosen field) p.k0 m.now table work }
{
    job::require(table_length::table_ok(p, m.len()), Refusal::Depth)?;
    job::require(sizes::k0_ok(p), Refusal::BaseWords)?;
    job::require(table == m.len() && work == m.len(), Refusal::Length)?;
    let below = scan::all_below(m, field);
    let none = &m[..0];
    inputs::judge_without_row(below, none, none, m, none, none, field)
}

fn find(message: &[u32], clearances: &mut [i32], work: &mut [u32], field: Field)
    requires message { (is_power (length message.now) ≡ true) × Low (P (chosen field)) message.now }
    requires lengths { (length clearances.old ≡ length message.now) × (length work.old ≡ length message.now) }
    ensures { (clearances.new ≡ table_of (chosen field) message.now) × (work.new ≡ replicate (length work.old) 0) }
{
    let depth = table_length::depth_of(message.len());
    words::copy(message, work);
    transform::transform(Way::ToTable, depth, work, field);
    slices::to_clearances(work, clearances, field);
}

pub fn coefficients_to_table(
    p: Parameters,
    message: &[u32],
    clearances: &mut [i32],
    work: &mut [u32],
    field: Field,
) -> Result<(), Refusal>
    ensures { ToTable (chosen field) p.k0 message.now clearances.old clearances.new work.old work.new result }
{
    judge(p, message, clearances.len(), work.len(), field)?;
    find(message, clearances, work, field);
    Ok(())
}
