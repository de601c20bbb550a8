// The siblings on the paths of the queries' leaves.
ghost use Rattle.std.specs.Prelude.{◌≡◌, cond, ◌+◌, ◌*◌, ◌/◌, ◌%◌, ◌^◌, ◌<◌, ◌≤◌, eqb, length};
ghost use Rattle.algebra.specs.Bits.{either};
ghost use Rattle.algebra.specs.Lists.{put};
ghost use Rattle.hash_parts.specs.Queries.{siblings_put, Room};

use crate::Slots;

// Of two siblings of height t the one that is not above leaf x, where their parent, node j, is above it.
fn put_other(left: &[u8], right: &[u8], t: u32, j: usize, x: usize, out: &mut [u8], at: usize)
    requires { (length left.now ≡ 32) × (length right.now ≡ 32) × (t < 63) × (at + 32 ≤ length out.old) }
    ensures { out.new ≡ cond (eqb (x / 2 ^ (t + 1)) j) (put at (either (x / 2 ^ t % 2) left.now right.now) out.old) out.old }
{
    if x >> (t + 1) != j {
        return;
    }
    if (x >> t) % 2 == 0 {
        out[at..at + 32].copy_from_slice(right);
    } else {
        out[at..at + 32].copy_from_slice(left);
    }
}

// Two siblings of height t on the paths that go through their parent, node j.
pub fn write_siblings(
    left: &[u8],
    right: &[u8],
    n: usize,
    t: u32,
    j: usize,
    slots: &Slots<'_>,
    out: &mut [u8],
)
    requires { (length left.now ≡ 32) × (length right.now ≡ 32) × (0 < n) × (t < 63) × Room (8 + 32 * (t + 1)) slots.now.first slots.now.stride slots.now.queries.now out.old }
    ensures { out.new ≡ siblings_put left.now right.now n t j slots.now.queries.now slots.now.first slots.now.stride out.old }
{
    let mut at = slots.first + (8 + 32 * t as usize);
    for u in slots.queries {
        put_other(left, right, t, j, *u as usize % n, out, at);
        at += slots.stride;
    }
}
