// A verdict as C and Rust take it.
ghost use Rattle.std.specs.Prelude.{◌≡◌};
ghost use Rattle.verdict.specs.Verdicts.{numbers};
ghost use Rattle.reply.specs.Replies.{triple};

use crate::answer;
use crate::answer::Reply;
use verify::{Failure, Outcome, Verdict};

// The number of a check that failed, and its places.
fn failed(f: Failure) -> Reply
    ensures { result ≡ triple (numbers (record { outcome = Outcome.Rejected f })) }
{
    let (number, first, second) = match f {
        Failure::Sum(i) => (20, i, 0),
        Failure::Final => (21, 0, 0),
        Failure::Base(j) => (22, j, 0),
        Failure::Fold(q, i) => (23, q, i),
    };
    Reply {
        number,
        first,
        second,
    }
}

pub fn told(v: Verdict) -> Reply
    ensures { result ≡ triple (numbers v) }
{
    match v.outcome {
        Outcome::Accepted => answer::DONE,
        Outcome::Rejected(f) => failed(f),
        Outcome::Refused(r) => answer::refused(r),
    }
}
