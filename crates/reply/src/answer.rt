// An answer as C and Rust take it: the number, and the places that it names, else 0.
ghost use Rattle.std.specs.Prelude.{◌≡◌};
ghost use Rattle.job.specs.Outcome.{due, outcome};
ghost use Rattle.reply.specs.Replies.{triple, reply};

use job::Refusal;
pub use job::Reply;

// A job that is done, or a verdict that accepts.
pub const DONE: Reply = Reply {
    number: 0,
    first: 0,
    second: 0,
};

pub fn refused(refusal: Refusal) -> Reply
    ensures { result ≡ triple (due refusal) }
{
    job::numbers_of(refusal)
}

pub fn plain(answer: Result<(), Refusal>) -> Reply
    ensures { result ≡ reply (outcome answer) }
{
    match answer {
        Ok(()) => DONE,
        Err(r) => refused(r),
    }
}
