// Writing and verifying an opening.
ghost use Rattle.std.specs.Prelude.{◌≡◌};
ghost use Rattle.verdict.specs.Verdicts.{numbers_of};
ghost use Rattle.verify.specs.Verifying.{verification};
ghost use Rattle.reply.specs.Replies.{field_of, triple, WriteCall};

use job::Parameters;
use reply::answer::Reply;
use reply::{answer, field, verifying};

pub fn tv_write_opening(
    field: bool,
    p: Parameters,
    g: &[u32],
    t: &[u32],
    t2: &[u32],
    message: &[u32],
    z: &[u32],
    r: &[u32],
    opening: &mut [u32],
    work: &mut [u32],
    value: &mut u32,
) -> Reply
    ensures { WriteCall (field_of field) p.depth p.rate p.k0 g.now t.now t2.now message.now z.now r.now opening.old work.old value.old result opening.new work.new value.new }
{
    let f = field::named(field);
    match open::write_opening(p, g, t, t2, message, z, r, opening, work, f) {
        Ok(v) => {
            *value = v;
            answer::DONE
        }
        Err(r) => answer::refused(r),
    }
}

pub fn tv_verify_opening<'a>(
    field: bool,
    p: Parameters,
    g: &[u32],
    t: &[u32],
    t2: &[u32],
    block: &'a [u32],
    z: &[u32],
    y: u32,
    r: &[u32],
    queries: &[u32],
    opening: &'a [u32],
) -> Reply
    ensures { result ≡ triple (numbers_of (verification (field_of field) p.depth p.rate p.k0 g.now t.now t2.now block.now z.now y r.now queries.now opening.now)) }
{
    verifying::told(verify::verify_opening(
        p,
        g,
        t,
        t2,
        block,
        z,
        y,
        r,
        queries,
        opening,
        field::named(field),
    ))
}
