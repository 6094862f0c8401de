// Digests of leaves and of nodes.
ghost use Rattle.std.specs.Prelude.{◌≡◌, ◌*◌, ◌≤◌, ℕ, [], get_or, length, IfOk};
ghost use Rattle.transcripts.specs.Filling.{AreNodes};
ghost use Rattle.transcripts.specs.MerkleTrees.{leaf_input, node_input, pair_input, row_input};

use crate::ByteHasher32;
use std::alloc::{AllocError, Allocator};

/// The digest of a leaf that is a word.
pub(crate) fn leaf_digest<H: ByteHasher32>(hasher: &H, word: u64) -> [u8; 32]
    ensures { result ≡ H.digest hasher.now (leaf_input word) }
{
    let mut input = [0; 9];
    input[1..].copy_from_slice(&word.to_le_bytes());
    hasher.hash32(&input)
}

/// The digest of a leaf that is a row of bytes. It fails if memory was refused.
pub(crate) fn row_digest<H: ByteHasher32, A: Allocator>(
    alloc: A,
    hasher: &H,
    row: &[u8],
) -> Result<[u8; 32], AllocError>
    ensures { IfOk result (λ digest. digest ≡ H.digest hasher.now (row_input row.now)) }
{
    let mut input = Vec::from_slice(alloc, &[0])?;
    input.extend_from_slice(row)?;
    Ok(hasher.hash32(input.as_slice()))
}

/// The digest of a node by those of its children.
pub(crate) fn node_digest<H: ByteHasher32>(hasher: &H, left: [u8; 32], right: [u8; 32]) -> [u8; 32]
    ensures { result ≡ H.digest hasher.now (node_input left right) }
{
    let mut input = [1; 65];
    let (_, children) = input.split_at_mut(1);
    let (first, second) = children.split_at_mut(32);
    first.copy_from_slice(&left);
    second.copy_from_slice(&right);
    hasher.hash32(&input)
}

/// The digest of a node by that of a child, at an even place on the left and at an odd one on the right, and that of the other.
pub(crate) fn pair_digest<H: ByteHasher32>(
    hasher: &H,
    place: usize,
    digest: [u8; 32],
    sibling: [u8; 32],
) -> [u8; 32]
    ensures { result ≡ H.digest hasher.now (pair_input place digest sibling) }
{
    if place % 2 == 0 {
        node_digest(hasher, digest, sibling)
    } else {
        node_digest(hasher, sibling, digest)
    }
}

/// Writes the digests of the nodes above the leaves, which stand behind as many places: that of node i is of its children, the nodes
/// 2 i and 2 i + 1.
pub(crate) fn join_leaves<H: ByteHasher32>(hasher: &H, nodes: &mut [[u8; 32]], leaves: usize)
    requires { length nodes.old ≡ 2 * leaves }
    ensures count { length nodes.new ≡ 2 * leaves }
    ensures leaves { (i : ℕ) → leaves ≤ i → get_or nodes.new i [] ≡ get_or nodes.old i [] }
    ensures nodes { AreNodes (H.digest hasher.now) leaves 1 nodes.new }
{
    'nodes: for node in (1..leaves).rev() {
        let digest = node_digest(hasher, nodes[2 * node], nodes[2 * node + 1]);
        nodes[node] = digest;
    }
}
