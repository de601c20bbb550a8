// A block for which no refusal before 8 is due: its message, or 8.
#![tactic(auto)]

ghost use Rattle.std.specs.Prelude.{◌≡◌, ◌*◌, ◌^◌, length, replicate};
ghost use Rattle.residue.specs.Chosen.{chosen};
ghost use Rattle.base_decode.specs.Decoding.{DecodeRows};
ghost use Rattle.base_settle.specs.Settling.{Settled};

use base_spread::RowCode;
use job::Refusal;
use residue::Field;

// An answer, with the work buffer cleared.
fn cleared(answer: Result<(), Refusal>, work: &mut [u32]) -> Result<(), Refusal>
    ensures { (result ≡ answer) × (work.new ≡ replicate (length work.old) 0) }
{
    words::clear(work);
    answer
}

// The answer where no refusal before 8 is due: the message, from the front of work, in out; or 8. m holds the inverse of the first k columns.
pub fn settle(
    code: &RowCode,
    depth: u32,
    m: &[u32],
    block: &[u32],
    out: &mut [u32],
    work: &mut [u32],
) -> Result<(), Refusal>
    requires { DecodeRows (chosen code.now.field) depth code.now.k code.now.n code.now.g.now m.now code.now.t.now code.now.t2.now block.now (length work.old) × (length out.old ≡ code.now.k * 2 ^ depth) }
    ensures { Settled (chosen code.now.field) depth code.now.k code.now.n code.now.g.now code.now.t.now code.now.t2.now block.now out.old result out.new × (work.new ≡ replicate (length work.old) 0) }
{
    if !base_decode::is_codeword_rows(code, depth, m, block, work) {
        return cleared(Err(Refusal::NoCodeword), work);
    }
    words::copy(&work[..out.len()], out);
    cleared(Ok(()), work)
}
