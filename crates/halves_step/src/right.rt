// The codeword of the right half of a message that stands in front of a slice, written behind the message in the same slice.
// It is for one base row: base_halves_step::right goes base message by base message, which takes longer where each is one word.
ghost use Rattle.std.specs.Prelude.{◌≡◌};
ghost use Rattle.residue.specs.Chosen.{chosen};
ghost use Rattle.code.specs.Steps.{SpreadInput};
ghost use Rattle.code.specs.SpreadLaws.{spreaded};
ghost use Rattle.halves_step.specs.Steps.{CodeLent, RightWritten};

use code::{lift, spread};
use residue::{Field, Residue};

// A base block for each word of the message.
fn spread_words(g: &[u32], message: &[u32], out: &mut [u32], field: Field)
    requires { SpreadInput (chosen field) message.now g.now out.old }
    ensures { out.new ≡ spreaded (chosen field) message.now g.now }
{
    let c = g.len();
    let mut x = 0;
    for i in 0..message.len() {
        let e = x + c;
        let a = Residue::new(message[i], field);
        spread::scale(a, g, &mut out[x..e], field);
        x = e;
    }
}

// The message has two halves of level `level`.
pub fn write_right(
    level: u32,
    b: usize,
    g: &[u32],
    t: &[u32],
    t2: &[u32],
    work: &mut [u32],
    field: Field,
)
    requires { CodeLent (chosen field) level b g.now t.now t2.now work.old }
    ensures { RightWritten (chosen field) level b g.now t.now t2.now work.old work.new }
{
    let n = job::message_len(level);
    let (message, behind) = work.split_at_mut(b);
    let out = &mut behind[..g.len() * n];
    spread_words(g, &message[n..n + n], out, field);
    lift::lift(level, g, t, t2, out, field);
}
