// What a proof carries of a block's hash tree: for each query the two words of its leaf, and the path of that leaf. The tree is hashed once.
#![tactic(auto)]

ghost use Rattle.std.specs.Prelude.{◌≡◌, ◌+◌, ◌*◌, ◌^◌, ◌<◌, ◌≤◌, length};
ghost use Rattle.merkle.specs.Tree.{node};
ghost use Rattle.hash_tree.specs.Tree.{node_hash};
ghost use Rattle.hash_root.specs.Levels.{leaf_of, level_root};
ghost use Rattle.hash_parts.specs.Queries.{leaves, siblings_put, Room};
ghost use Rattle.hash_opened.specs.Carried.{paths_put, written};

use hash_parts::{Slots, leaf_words, siblings};
use sha256::Digest;

// Two siblings of height t are written on the paths through their parent, node j, and the parent is hashed.
fn join(
    left: Digest,
    right: Digest,
    n: usize,
    t: u32,
    j: usize,
    slots: &Slots<'_>,
    out: &mut [u8],
) -> Digest
    requires { (0 < n) × (t < 63) × Room (8 + 32 * (t + 1)) slots.now.first slots.now.stride slots.now.queries.now out.old }
    ensures { (result.bytes ≡ node_hash left.bytes right.bytes) × (out.new ≡ siblings_put left.bytes right.bytes n t j slots.now.queries.now slots.now.first slots.now.stride out.old) }
{
    siblings::write_siblings(&left.bytes, &right.bytes, n, t, j, slots, out);
    hash_tree::node(&left.bytes, &right.bytes)
}

// Node j of height t, with the paths through it written up to it. Where no path goes through it, it is only hashed.
fn visit(block: &[u32], t: u32, j: usize, slots: &Slots<'_>, out: &mut [u8]) -> Digest
    requires { (2 ^ t * (j + 1) ≤ leaves block.now) × Room (8 + 32 * t) slots.now.first slots.now.stride slots.now.queries.now out.old }
    ensures { (result.bytes ≡ node node_hash (leaf_of block.now) t j) × (out.new ≡ paths_put block.now t j slots.now.queries.now slots.now.first slots.now.stride out.old) }
{
    let n = block.len() / 2;
    if t == 0 {
        return hash_root::node_of(block, t, j);
    }
    if hash_parts::untouched(slots.queries, n, t, j) {
        return hash_root::node_of(block, t, j);
    }
    let low = t - 1;
    let left = visit(block, low, 2 * j, slots, out);
    let right = visit(block, low, 2 * j + 1, slots, out);
    join(left, right, n, low, j, slots, out)
}

// What each query carries, stride bytes apart, and the root.
pub fn write_carried(
    block: &[u32],
    height: u32,
    queries: &[u32],
    first: usize,
    stride: usize,
    out: &mut [u8],
) -> Digest
    requires { (length block.now ≡ 2 ^ height + 2 ^ height) × Room (8 + 32 * height) first stride queries.now out.old }
    ensures { (result.bytes ≡ level_root height block.now) × (out.new ≡ written height block.now queries.now first stride out.old) }
{
    let slots = Slots {
        queries,
        first,
        stride,
    };
    leaf_words::write_words(block, &slots, out);
    visit(block, height, 0, &slots, out)
}
