// The hash tree over a block of words. Leaf j holds the words j and j + n/2, the two that a fold takes together.
#![tactic(auto)]

ghost use Rattle.std.specs.Prelude.{◌≡◌, ◌+◌, ◌*◌, ◌/◌, ◌^◌, ◌<◌, ◌≤◌, length};
ghost use Rattle.merkle.specs.Tree.{node};
ghost use Rattle.hash_tree.specs.Tree.{node_hash};
ghost use Rattle.hash_root.specs.Levels.{leaf_of, level_root};

use sha256::Digest;

// Leaf j.
#[tactic(auto, unfolding(crate::specs::Levels::leaf_of))]
fn leaf_of(block: &[u32], j: usize) -> Digest
    requires { j < length block.now / 2 }
    ensures { result.bytes ≡ leaf_of block.now j }
{
    let half = block.len() / 2;
    hash_tree::leaf(block[j], block[j + half])
}

// Node j of a height: each leaf below it is hashed once.
pub fn node_of(block: &[u32], height: u32, j: usize) -> Digest
    requires { 2 ^ height * (j + 1) ≤ length block.now / 2 }
    ensures { result.bytes ≡ node node_hash (leaf_of block.now) height j }
{
    if height == 0 {
        return leaf_of(block, j);
    }
    let low = height - 1;
    let left = node_of(block, low, 2 * j);
    let right = node_of(block, low, 2 * j + 1);
    hash_tree::node(&left.bytes, &right.bytes)
}

// The root over all words of a block.
pub fn root_of(block: &[u32], height: u32) -> Digest
    requires { length block.now ≡ 2 ^ height + 2 ^ height }
    ensures { result.bytes ≡ level_root height block.now }
{
    node_of(block, height, 0)
}
