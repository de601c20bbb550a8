// Writing an opening.
#![tactic(auto)]

ghost use Rattle.residue.specs.Chosen.{chosen};
ghost use Rattle.open.specs.Writing.{Wrote};

use base_spread::RowCode;
use job::{Parameters, Refusal, sizes};
use residue::Field;

mod judge;

// The answer is the polynomial's value at the point.
pub fn write_opening(
    p: Parameters,
    g: &[u32],
    t: &[u32],
    t2: &[u32],
    message: &[u32],
    z: &[u32],
    r: &[u32],
    opening: &mut [u32],
    work: &mut [u32],
    field: Field,
) -> Result<u32, Refusal>
    ensures { Wrote (chosen field) p.depth p.rate p.k0 g.now t.now t2.now message.now z.now r.now opening.old work.old result opening.new work.new }
{
    judge::judge(p, g, t, t2, message, z, r, opening.len(), work.len(), field)?;
    let low = sizes::low_len(p) as u32;
    let k = p.k0 as usize;
    let n = sizes::base_len(p);
    let code = RowCode {
        low,
        k,
        n,
        g,
        t,
        t2,
        field,
    };
    let v = base_open::write_rows(&code, p.depth, message, z, r, opening, work);
    Ok(v.word())
}
