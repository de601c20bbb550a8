// Clearances, tables and evaluation.
ghost use Rattle.std.specs.Prelude.{◌≡◌};
ghost use Rattle.read_clearance.specs.Reading.{reading as reading_of};
ghost use Rattle.reply.specs.Replies.{field_of, reading_reply, ToCoefficientsCall, ToTableCall, EvaluateCall};

use job::Parameters;
use reply::answer::Reply;
use reply::reading::ReadingReply;

#[unsafe(no_mangle)]
pub extern "C" fn tv_read_clearance(field: bool, word: u32) -> ReadingReply
    ensures { result ≡ reading_reply (reading_of (field_of field) word) }
{
    tvarchula::ground::tv_read_clearance(field, word)
}

#[unsafe(no_mangle)]
pub extern "C" fn tv_table_to_coefficients(
    field: bool,
    p: Parameters,
    clearances: &[i32],
    message: &mut [u32],
) -> Reply
    ensures { ToCoefficientsCall (field_of field) p.k0 clearances.now message.old message.new result }
{
    tvarchula::ground::tv_table_to_coefficients(field, p, clearances, message)
}

#[unsafe(no_mangle)]
pub extern "C" fn tv_coefficients_to_table(
    field: bool,
    p: Parameters,
    message: &[u32],
    clearances: &mut [i32],
    work: &mut [u32],
) -> Reply
    ensures { ToTableCall (field_of field) p.k0 message.now clearances.old clearances.new work.old work.new result }
{
    tvarchula::ground::tv_coefficients_to_table(field, p, message, clearances, work)
}

#[unsafe(no_mangle)]
pub extern "C" fn tv_evaluate(
    field: bool,
    p: Parameters,
    message: &[u32],
    z: &[u32],
    value: &mut u32,
) -> Reply
    ensures { EvaluateCall (field_of field) p.depth p.k0 message.now z.now value.old result value.new }
{
    tvarchula::ground::tv_evaluate(field, p, message, z, value)
}
