// The codeword of a message.
#![tactic(auto)]

ghost use Rattle.std.specs.Prelude.{◌≡◌, ◌&&◌};
ghost use Rattle.residue.specs.Chosen.{chosen};
ghost use Rattle.job.specs.Outcome.{outcome};
ghost use Rattle.job.specs.Sizes.{in_limits};
ghost use Rattle.encode.specs.Encoding.{encode_lengths, judge_encoding, Encoded};

use base_parameters::judging;
use base_parameters::judging::Flags;
use base_spread::RowCode;
use job::{Parameters, Refusal, sizes};
use places::inputs::Inputs;
use residue::Field;

#[tactic(auto, unfolding(crate::specs::Encoding::encode_lengths))]
fn lengths_ok(p: Parameters, g: usize, t: usize, t2: usize, m: usize, out: usize) -> bool
    ensures { result ≡ (in_limits p.depth p.rate p.k0 && encode_lengths p.depth p.rate p.k0 g t t2 m out) }
{
    judging::lengths_ok(p, g, t, t2)
        && m == sizes::message_len(p)
        && out == sizes::block_len(p, p.depth)
}

fn judge(
    p: Parameters,
    g: &[u32],
    t: &[u32],
    t2: &[u32],
    m: &[u32],
    out: usize,
    field: Field,
) -> Result<(), Refusal>
    ensures { outcome result ≡ judge_encoding (chosen field) p.depth p.rate p.k0 g.now t.now t2.now m.now out }
{
    let lengths = lengths_ok(p, g.len(), t.len(), t2.len(), m.len(), out);
    let row = parameters::scan_row(lengths, g, t, t2, field);
    let flags = Flags {
        lengths,
        words: parameters::all_words_ok(row.words, m, field),
        apart: row.apart,
    };
    let lent = Inputs {
        g,
        t,
        t2,
        block: m,
        ..Inputs::NONE
    };
    judging::judge(p, &lent, flags, field)
}

pub fn encode(
    p: Parameters,
    g: &[u32],
    t: &[u32],
    t2: &[u32],
    message: &[u32],
    out: &mut [u32],
    field: Field,
) -> Result<(), Refusal>
    ensures { Encoded (chosen field) p.depth p.rate p.k0 g.now t.now t2.now message.now out.old result out.new }
{
    judge(p, g, t, t2, message, out.len(), field)?;
    let low = sizes::low_len(p) as u32;
    let k = p.k0 as usize;
    let n = sizes::base_len(p);
    let code = RowCode {
        low,
        k,
        n,
        g,
        t,
        t2,
        field,
    };
    base_spread::encode_rows(&code, p.depth, message, out);
    Ok(())
}
