// Clearances, tables and evaluation.
ghost use Rattle.std.specs.Prelude.{◌≡◌};
ghost use Rattle.read_clearance.specs.Reading.{reading as reading_of};
ghost use Rattle.reply.specs.Replies.{field_of, reading_reply, ToCoefficientsCall, ToTableCall, EvaluateCall};

use job::Parameters;
use reply::answer::Reply;
use reply::reading::ReadingReply;
use reply::{answer, field, reading};

pub fn tv_read_clearance(field: bool, word: u32) -> ReadingReply
    ensures { result ≡ reading_reply (reading_of (field_of field) word) }
{
    reading::told(read_clearance::read_clearance(word, field::named(field)))
}

pub fn tv_table_to_coefficients(
    field: bool,
    p: Parameters,
    clearances: &[i32],
    message: &mut [u32],
) -> Reply
    ensures { ToCoefficientsCall (field_of field) p.k0 clearances.now message.old message.new result }
{
    answer::plain(coefficients::table_to_coefficients(p, clearances, message, field::named(field)))
}

pub fn tv_coefficients_to_table(
    field: bool,
    p: Parameters,
    message: &[u32],
    clearances: &mut [i32],
    work: &mut [u32],
) -> Reply
    ensures { ToTableCall (field_of field) p.k0 message.now clearances.old clearances.new work.old work.new result }
{
    answer::plain(table::coefficients_to_table(p, message, clearances, work, field::named(field)))
}

pub fn tv_evaluate(field: bool, p: Parameters, message: &[u32], z: &[u32], value: &mut u32) -> Reply
    ensures { EvaluateCall (field_of field) p.depth p.k0 message.now z.now value.old result value.new }
{
    match evaluate::evaluate(p, message, z, field::named(field)) {
        Ok(v) => {
            *value = v;
            answer::DONE
        }
        Err(r) => answer::refused(r),
    }
}
