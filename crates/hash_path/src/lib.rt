// The path of a leaf in a hash tree, as bytes: 32 for each sibling, from the leaf up.
#![tactic(auto)]

ghost use Rattle.std.specs.Prelude.{◌≡◌, length};
ghost use Rattle.merkle.specs.Tree.{parent as parent_of};
ghost use Rattle.hash_tree.specs.Tree.{node_hash};
ghost use Rattle.hash_path.specs.Climbing.{climbed};
ghost use Rattle.hash_path.specs.Same.{same_bytes};

use sha256::Digest;

pub mod bytes;

// A node hashed with its sibling: in an even place it is the left child.
fn parent(place: u32, x: Digest, sibling: &[u8]) -> Digest
    requires { length sibling.now ≡ 32 }
    ensures { result.bytes ≡ parent_of node_hash place x.bytes sibling.now }
{
    if place % 2 == 0 {
        hash_tree::node(&x.bytes, sibling)
    } else {
        hash_tree::node(sibling, &x.bytes)
    }
}

// What a path makes of a node in a place. Bytes behind the last whole sibling do not count.
pub fn climb(place: u32, x: Digest, path: &[u8]) -> Digest
    ensures { result.bytes ≡ climbed place x.bytes path.now }
{
    let mut j = place;
    let mut d = x;
    for sibling in path.chunks_exact(32) {
        d = parent(j, d, sibling);
        j /= 2;
    }
    d
}

// Whether a path leads from a leaf to the root.
pub fn leads(place: u32, leaf: Digest, path: &[u8], root: &[u8]) -> bool
    ensures { result ≡ same_bytes (climbed place leaf.bytes path.now) root.now }
{
    bytes::same(&climb(place, leaf, path).bytes, root)
}
