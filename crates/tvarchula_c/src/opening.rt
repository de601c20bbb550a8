// Writing and verifying an opening.
ghost use Rattle.std.specs.Prelude.{◌≡◌};
ghost use Rattle.verdict.specs.Verdicts.{numbers_of};
ghost use Rattle.verify.specs.Verifying.{verification};
ghost use Rattle.reply.specs.Replies.{field_of, triple, WriteCall};

use job::Parameters;
use reply::answer::Reply;

#[unsafe(no_mangle)]
pub extern "C" fn tv_write_opening(
    field: bool,
    p: Parameters,
    g: &[u32],
    t: &[u32],
    t2: &[u32],
    message: &[u32],
    z: &[u32],
    r: &[u32],
    opening: &mut [u32],
    work: &mut [u32],
    value: &mut u32,
) -> Reply
    ensures { WriteCall (field_of field) p.depth p.rate p.k0 g.now t.now t2.now message.now z.now r.now opening.old work.old value.old result opening.new work.new value.new }
{
    tvarchula::opening::tv_write_opening(field, p, g, t, t2, message, z, r, opening, work, value)
}

#[unsafe(no_mangle)]
pub extern "C" fn tv_verify_opening<'a>(
    field: bool,
    p: Parameters,
    g: &[u32],
    t: &[u32],
    t2: &[u32],
    block: &'a [u32],
    z: &[u32],
    y: u32,
    r: &[u32],
    queries: &[u32],
    opening: &'a [u32],
) -> Reply
    ensures { result ≡ triple (numbers_of (verification (field_of field) p.depth p.rate p.k0 g.now t.now t2.now block.now z.now y r.now queries.now opening.now)) }
{
    tvarchula::opening::tv_verify_opening(field, p, g, t, t2, block, z, y, r, queries, opening)
}
