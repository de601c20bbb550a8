// Base row and diagonals by rule, over the second field.
ghost use Rattle.reply.specs.Replies.{FillCall};

use job::Parameters;
use reply::answer;
use reply::answer::Reply;

pub fn tv_fill_roots(p: Parameters, g: &mut [u32], t: &mut [u32], t2: &mut [u32]) -> Reply
    ensures { FillCall p.depth p.rate p.k0 g.old t.old t2.old result g.new t.new t2.new }
{
    answer::plain(fill_roots::fill_roots(p, g, t, t2))
}
