// A reading as C and Rust take it.
ghost use Rattle.std.specs.Prelude.{◌≡◌};
ghost use Rattle.read_clearance.specs.Reading.{reading_outcome};
ghost use Rattle.reply.specs.Replies.{reading_reply};

use crate::answer;
use crate::answer::Reply;
use job::Refusal;
use read_clearance::Reading;

// kind is 1 for free, 2 for an overlap, 3 for contact, whose amount is 0; kind and amount are 0 where the word is refused.
#[repr(C)]
#[derive(Clone, Copy, Debug, PartialEq, Eq)]
pub struct ReadingReply {
    pub answer: Reply,
    pub kind: u32,
    pub amount: u32,
}

pub fn told(reading: Result<Reading, Refusal>) -> ReadingReply
    ensures { result ≡ reading_reply (reading_outcome reading) }
{
    let (answer, kind, amount) = match reading {
        Ok(Reading::Free(n)) => (answer::DONE, 1, n),
        Ok(Reading::Overlap(n)) => (answer::DONE, 2, n),
        Ok(Reading::Contact) => (answer::DONE, 3, 0),
        Err(r) => (answer::refused(r), 0, 0),
    };
    ReadingReply {
        answer,
        kind,
        amount,
    }
}
