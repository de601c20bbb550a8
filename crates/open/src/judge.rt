// What the job judges, in the order of the refusals.
ghost use Rattle.std.specs.Prelude.{◌≡◌, true, ◌&&◌};
ghost use Rattle.residue.specs.Chosen.{chosen};
ghost use Rattle.job.specs.Outcome.{outcome};
ghost use Rattle.job.specs.Sizes.{in_limits, size_ok};
ghost use Rattle.open.specs.Writing.{input_lengths, buffer_lengths, write_lengths, input_words, judge_writing};

use base_parameters::judging;
use base_parameters::judging::Flags;
use job::{Parameters, Refusal, sizes};
use places::inputs::Inputs;
use residue::Field;
use words::scan;

// Of the lengths of message, point and challenges.
#[tactic(auto, unfolding(crate::specs::Writing::input_lengths))]
fn inputs_ok(p: Parameters, m: usize, z: usize, r: usize) -> bool
    requires { size_ok p.depth p.k0 ≡ true }
    ensures { result ≡ input_lengths p.depth p.k0 m z r }
{
    m == sizes::message_len(p) && z == sizes::point_len(p) && r == p.depth as usize
}

// Of the lengths of opening and work.
#[tactic(auto, unfolding(crate::specs::Writing::buffer_lengths))]
fn buffers_ok(p: Parameters, o: usize, s: usize) -> bool
    requires { in_limits p.depth p.rate p.k0 ≡ true }
    ensures { result ≡ buffer_lengths p.depth p.rate p.k0 o s }
{
    o == sizes::opening_len(p) && s == 2 * sizes::message_len(p)
}

// Whether the record is legal and all slices have the lengths that it gives.
#[tactic(auto, unfolding(crate::specs::Writing::write_lengths))]
fn lengths_ok(
    p: Parameters,
    g: usize,
    t: usize,
    t2: usize,
    m: usize,
    z: usize,
    r: usize,
    o: usize,
    s: usize,
) -> bool
    ensures { result ≡ (in_limits p.depth p.rate p.k0 && write_lengths p.depth p.rate p.k0 g t t2 m z r o s) }
{
    judging::lengths_ok(p, g, t, t2) && inputs_ok(p, m, z, r) && buffers_ok(p, o, s)
}

// Whether all words are below the modulus, where those of base matrix and diagonals are.
#[tactic(auto, unfolding(crate::specs::Writing::input_words))]
fn words_ok(row: bool, m: &[u32], z: &[u32], r: &[u32], field: Field) -> bool
    ensures { result ≡ (row && input_words (chosen field) m.now z.now r.now) }
{
    row && scan::all_below(m, field) && scan::all_below(z, field) && scan::all_below(r, field)
}

pub fn judge(
    p: Parameters,
    g: &[u32],
    t: &[u32],
    t2: &[u32],
    m: &[u32],
    z: &[u32],
    r: &[u32],
    o: usize,
    s: usize,
    field: Field,
) -> Result<(), Refusal>
    ensures { outcome result ≡ judge_writing (chosen field) p.depth p.rate p.k0 g.now t.now t2.now m.now z.now r.now o s }
{
    let lengths = lengths_ok(
        p,
        g.len(),
        t.len(),
        t2.len(),
        m.len(),
        z.len(),
        r.len(),
        o,
        s,
    );
    let row = parameters::scan_row(lengths, g, t, t2, field);
    let lent = Inputs {
        g,
        t,
        t2,
        block: m,
        z,
        r,
        ..Inputs::NONE
    };
    let flags = Flags {
        lengths,
        words: words_ok(row.words, m, z, r, field),
        apart: row.apart,
    };
    judging::judge(p, &lent, flags, field)
}
