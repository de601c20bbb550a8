// The two words of a leaf, as bytes.
ghost use Rattle.std.specs.Prelude.{◌≡◌, ◌++◌, ◌+◌, ◌<◌, ◌≤◌, length};
ghost use Rattle.algebra.specs.Lists.{put};
ghost use Rattle.hash_tree.specs.Tree.{low_first};
ghost use Rattle.hash_parts.specs.Queries.{leaves, leaf_bytes, words_put, Room};

use crate::Slots;

// The bytes of two words, the lowest of each first.
fn pair_bytes(x: u32, y: u32) -> [u8; 8]
    ensures { result ≡ low_first x ++ low_first y }
{
    let mut b = [0u8; 8];
    b[..4].copy_from_slice(&x.to_le_bytes());
    b[4..].copy_from_slice(&y.to_le_bytes());
    b
}

// The words of leaf j at a place.
#[tactic(auto, unfolding(crate::specs::Queries::leaf_bytes))]
fn put_leaf(block: &[u32], j: usize, out: &mut [u8], at: usize)
    requires { (j < leaves block.now) × (at + 8 ≤ length out.old) }
    ensures { out.new ≡ put at (leaf_bytes (leaves block.now) block.now j) out.old }
{
    let n = block.len() / 2;
    let b = pair_bytes(block[j], block[j + n]);
    out[at..at + 8].copy_from_slice(&b);
}

// The words of each query's leaf.
pub fn write_words(block: &[u32], slots: &Slots<'_>, out: &mut [u8])
    requires { (0 < leaves block.now) × Room 8 slots.now.first slots.now.stride slots.now.queries.now out.old }
    ensures { out.new ≡ words_put block.now slots.now.queries.now slots.now.first slots.now.stride out.old }
{
    let n = block.len() / 2;
    let mut at = slots.first;
    for u in slots.queries {
        put_leaf(block, *u as usize % n, out, at);
        at += slots.stride;
    }
}
