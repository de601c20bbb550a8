// Encoding, decoding and folding.
ghost use Rattle.reply.specs.Replies.{field_of, EncodeCall, DecodeCall, FoldCall};

use job::Parameters;
use reply::answer::Reply;
use reply::{answer, field};

pub fn tv_encode(
    field: bool,
    p: Parameters,
    g: &[u32],
    t: &[u32],
    t2: &[u32],
    message: &[u32],
    block: &mut [u32],
) -> Reply
    ensures { EncodeCall (field_of field) p.depth p.rate p.k0 g.now t.now t2.now message.now block.old result block.new }
{
    answer::plain(encode::encode(p, g, t, t2, message, block, field::named(field)))
}

pub fn tv_decode(
    field: bool,
    p: Parameters,
    g: &[u32],
    t: &[u32],
    t2: &[u32],
    block: &[u32],
    message: &mut [u32],
    work: &mut [u32],
) -> Reply
    ensures { DecodeCall (field_of field) p.depth p.rate p.k0 g.now t.now t2.now block.now message.old work.old result message.new work.new }
{
    answer::plain(decode::decode::decode(p, g, t, t2, block, message, work, field::named(field)))
}

pub fn tv_fold(
    field: bool,
    p: Parameters,
    t: &[u32],
    t2: &[u32],
    block: &[u32],
    challenge: u32,
    folded: &mut [u32],
) -> Reply
    ensures { FoldCall (field_of field) p.depth p.rate p.k0 t.now t2.now block.now challenge folded.old result folded.new }
{
    answer::plain(fold::fold(p, t, t2, block, challenge, folded, field::named(field)))
}
