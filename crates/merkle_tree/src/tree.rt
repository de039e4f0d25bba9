ghost use Rattle.std.specs.Prelude.{◌≡◌, ◌≤◌, ◌<◌, ◌^◌};
ghost use Rattle.merkle_tree.specs.Tree.{IsBytes, node_digest, row_digest, tree_at, tree_root};

use sha2::{Digest, Sha256};

/// The digest of a row.
pub fn row_digest(row: &[u8]) -> [u8; 32]
    ensures { result ≡ row_digest row.now }
{
    let mut hasher = Sha256::new();
    hasher.update(&[0u8]);
    hasher.update(row);
    hasher.finalize()
}

/// The root of the tree over some leaves.
pub fn tree_root(leaves: &[[u8; 32]]) -> [u8; 32]
    ensures { result ≡ tree_root leaves.now }
{
    tree_at(64, leaves)
}

// The digest of a node.
pub(crate) fn node_digest(left: &[u8; 32], right: &[u8; 32]) -> [u8; 32]
    ensures { result ≡ node_digest left.now right.now }
{
    let mut hasher = Sha256::new();
    hasher.update(&[1u8]);
    hasher.update(left.as_slice());
    hasher.update(right.as_slice());
    hasher.finalize()
}

// The number of leaves in the left half of a full tree of so many levels and one more.
pub(crate) fn half_of(level: u32) -> u64
    requires { level < 64 }
    ensures { result ≡ 2 ^ level }
{
    1 << level
}

// The root of a tree of at most 2 ^ level leaves.
pub(crate) fn tree_at(level: u32, leaves: &[[u8; 32]]) -> [u8; 32]
    requires { level ≤ 64 }
    ensures { result ≡ tree_at level leaves.now }
{
    if level == 0 {
        return match leaves.first() {
            Some(leaf) => *leaf,
            None => Sha256::digest(b""),
        };
    }
    let half = half_of(level - 1);
    if leaves.len() as u64 <= half {
        return tree_at(level - 1, leaves);
    }
    let (left, right) = leaves.split_at(half as usize);
    node_digest(&tree_at(level - 1, left), &tree_at(level - 1, right))
}
