// The message of a codeword.
ghost use Rattle.std.specs.Prelude.{◌≡◌, true, ◌&&◌, eqb};
ghost use Rattle.residue.specs.Chosen.{chosen};
ghost use Rattle.job.specs.Outcome.{outcome};
ghost use Rattle.job.specs.Limits.{block_size};
ghost use Rattle.job.specs.Sizes.{in_limits, base_size, message_size};
ghost use Rattle.decode.specs.Decoding.{decode_lengths, judge_decoding, Decoded};

use base_parameters::judging;
use base_parameters::judging::Flags;
use base_spread::RowCode;
use job::{Parameters, Refusal, sizes};
use places::inputs::Inputs;
use residue::Field;

// Of the lengths of block, result and work.
fn buffers_ok(p: Parameters, block: usize, out: usize, work: usize) -> bool
    requires { in_limits p.depth p.rate p.k0 ≡ true }
    ensures { result ≡ (eqb block (block_size (base_size p.rate p.k0) p.depth) && (eqb out (message_size p.depth p.k0) && eqb work (block_size (base_size p.rate p.k0) p.depth))) }
{
    let n = sizes::block_len(p, p.depth);
    block == n && out == sizes::message_len(p) && work == n
}

#[tactic(auto, unfolding(crate::specs::Decoding::decode_lengths))]
fn lengths_ok(
    p: Parameters,
    g: usize,
    t: usize,
    t2: usize,
    block: usize,
    out: usize,
    work: usize,
) -> bool
    ensures { result ≡ (in_limits p.depth p.rate p.k0 && decode_lengths p.depth p.rate p.k0 g t t2 block out work) }
{
    judging::lengths_ok(p, g, t, t2) && buffers_ok(p, block, out, work)
}

fn judge(
    p: Parameters,
    g: &[u32],
    t: &[u32],
    t2: &[u32],
    block: &[u32],
    out: usize,
    work: usize,
    field: Field,
) -> Result<(), Refusal>
    ensures { outcome result ≡ judge_decoding (chosen field) p.depth p.rate p.k0 g.now t.now t2.now block.now out work }
{
    let lengths = lengths_ok(p, g.len(), t.len(), t2.len(), block.len(), out, work);
    let row = parameters::scan_row(lengths, g, t, t2, field);
    let lent = Inputs {
        g,
        t,
        t2,
        block,
        ..Inputs::NONE
    };
    let flags = Flags {
        lengths,
        words: parameters::all_words_ok(row.words, block, field),
        apart: row.apart,
    };
    judging::judge(p, &lent, flags, field)
}

// Where 5 is not due the first columns have an inverse, so what inverting says of that is not asked.
pub fn decode(
    p: Parameters,
    g: &[u32],
    t: &[u32],
    t2: &[u32],
    block: &[u32],
    out: &mut [u32],
    work: &mut [u32],
    field: Field,
) -> Result<(), Refusal>
    ensures { Decoded (chosen field) p.depth p.rate p.k0 g.now t.now t2.now block.now out.old work.old result out.new work.new }
{
    judge(p, g, t, t2, block, out.len(), work.len(), field)?;
    let low = sizes::low_len(p) as u32;
    let k = p.k0 as usize;
    let n = sizes::base_len(p);
    let inverse = base_matrix::invert(k, n, g, field);
    let code = RowCode {
        low,
        k,
        n,
        g,
        t,
        t2,
        field,
    };
    base_settle::settle(&code, p.depth, &inverse.m, block, out, work)
}
