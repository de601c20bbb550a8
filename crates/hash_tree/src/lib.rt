// Leaves and nodes of a hash tree over pairs of words.
#![tactic(auto)]

ghost use Rattle.std.specs.Prelude.{◌≡◌, length};
ghost use Rattle.hash_tree.specs.Tree.{leaf_hash, node_hash};

use sha256::Digest;

// The hash of two words.
#[tactic(auto, unfolding(crate::specs::Tree::leaf_hash))]
pub fn leaf(x: u32, y: u32) -> Digest
    ensures { result.bytes ≡ leaf_hash x y }
{
    // The copies leave the first byte, 0.
    let mut m = [0u8; 9];
    m[1..5].copy_from_slice(&x.to_le_bytes());
    m[5..].copy_from_slice(&y.to_le_bytes());
    sha256::sha256(&m)
}

// The hash of two hashes.
pub fn node(left: &[u8], right: &[u8]) -> Digest
    requires { (length left.now ≡ 32) × (length right.now ≡ 32) }
    ensures { result.bytes ≡ node_hash left.now right.now }
{
    // The copies leave the first byte, 1.
    let mut m = [1u8; 65];
    m[1..33].copy_from_slice(left);
    m[33..].copy_from_slice(right);
    sha256::sha256(&m)
}
