// What is judged of an opening and all that is lent beside it, but for the queries.
#![tactic(auto)]

ghost use Rattle.std.specs.Prelude.{◌≡◌, ◌&&◌};
ghost use Rattle.residue.specs.Chosen.{chosen};
ghost use Rattle.job.specs.Outcome.{outcome};
ghost use Rattle.job.specs.Sizes.{in_limits};
ghost use Rattle.opened.specs.Opened.{opened_lengths, claim_words, judge_opened};

use base_parameters::judging;
use base_parameters::judging::Flags;
use job::{Parameters, Refusal, sizes};
use places::inputs::Inputs;
use residue::{Field, Residue};
use words::scan;

// Whether the record is legal and g, t, t2, block, z, r and opening have the lengths that it gives.
#[tactic(auto, unfolding(crate::specs::Opened::opened_lengths))]
fn lengths_ok(
    p: Parameters,
    g: usize,
    t: usize,
    t2: usize,
    block: usize,
    z: usize,
    r: usize,
    opening: usize,
) -> bool
    ensures { result ≡ (in_limits p.depth p.rate p.k0 && opened_lengths p.depth p.rate p.k0 g t t2 block z r opening) }
{
    judging::lengths_ok(p, g, t, t2)
        && block == sizes::block_len(p, p.depth)
        && z == sizes::point_len(p)
        && r == p.depth as usize
        && opening == sizes::opening_len(p)
}

// Whether all words are below the modulus, where those of base matrix and diagonals are.
fn words_ok(
    row: bool,
    block: &[u32],
    z: &[u32],
    y: u32,
    r: &[u32],
    opening: &[u32],
    field: Field,
) -> bool
    ensures { result ≡ (row && claim_words (chosen field) block.now z.now y r.now opening.now) }
{
    row && scan::all_below(block, field)
        && scan::all_below(z, field)
        && y < Residue::modulus(field)
        && scan::all_below(r, field)
        && scan::all_below(opening, field)
}

// All that is lent but the queries.
pub fn judge_opened(
    p: Parameters,
    g: &[u32],
    t: &[u32],
    t2: &[u32],
    block: &[u32],
    z: &[u32],
    y: u32,
    r: &[u32],
    opening: &[u32],
    field: Field,
) -> Result<(), Refusal>
    ensures { outcome result ≡ judge_opened (chosen field) p.depth p.rate p.k0 g.now t.now t2.now block.now z.now y r.now opening.now }
{
    let lengths = lengths_ok(
        p,
        g.len(),
        t.len(),
        t2.len(),
        block.len(),
        z.len(),
        r.len(),
        opening.len(),
    );
    let row = parameters::scan_row(lengths, g, t, t2, field);
    let claim = [y];
    let lent = Inputs {
        g,
        t,
        t2,
        block,
        z,
        y: &claim,
        r,
        opening,
    };
    let flags = Flags {
        lengths,
        words: words_ok(row.words, block, z, y, r, opening, field),
        apart: row.apart,
    };
    judging::judge(p, &lent, flags, field)
}
