// What a writer of openings does whatever a base message is: write a round, fold what is left, weigh.
// What is left of the message lies in the front of the work buffer. The weight is eq of the variables whose challenges are put in.
#![tactic(auto)]

ghost use Rattle.std.specs.Prelude.{◌≡◌, suc, length};
ghost use Rattle.residue.specs.Chosen.{chosen};
ghost use Rattle.algebra.specs.Lists.{put};
ghost use Rattle.basefold.specs.Layout.{round_at};
ghost use Rattle.steps.specs.Steps.{sent_words, GiveRoundInput};

use residue::{Field, Residue};

pub mod fold;
mod send;
pub mod weigh;

// h_(i+1) into its place.
pub fn write_round(
    depth: u32,
    i: u32,
    w: Residue,
    z: &[u32],
    opening: &mut [u32],
    work: &[u32],
    field: Field,
)
    requires { GiveRoundInput (chosen field) depth i w z.now (length opening.old) work.now }
    ensures { opening.new ≡ put (round_at depth (suc i)) (sent_words (chosen field) i w z.now work.now) opening.old }
{
    let next = i + 1;
    let k = next as usize;
    let n = job::message_len(next);
    let at = layout::round_at(depth, next);
    let end = at + 3;
    send::round_values(w, &z[..k], &work[..n], &mut opening[at..end], field);
}
