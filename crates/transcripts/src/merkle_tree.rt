// What a Merkle tree holds. It stands alone, since what its invariants name may not name it.
ghost use Rattle.std.specs.Prelude.{◌≡◌, ◌*◌, ◌^◌, ◌≤◌, vec_len};

use std::alloc::Allocator;

/// A Merkle tree over 2^depth words, or rows of bytes, depth from 0 to 40: the digests of its nodes. Node 1 is the root, the children
/// of node i are the nodes 2 i and 2 i + 1, and the leaves are the last 2^depth nodes.
#[derive(Drop)]
pub struct MerkleTree<A: Allocator> {
    pub(crate) depth: usize,
    pub(crate) nodes: Vec<[u8; 32], A>,
    ghost few: { depth ≤ 40 },
    ghost all: { vec_len nodes ≡ 2 * 2 ^ depth },
}
