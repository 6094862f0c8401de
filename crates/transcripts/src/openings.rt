// Openings of many leaves of a Merkle tree at once. The nodes that are sent are the roots of the largest trees in which nothing is opened,
// from left to right, so that none is sent twice and none that the others give.
ghost use Rattle.std.specs.Prelude.{◌≡◌, ◌↔◌, ◌+◌, ◌*◌, ◌^◌, ◌<◌, ◌≤◌, ℕ, List, [], ◌++◌};
ghost use Rattle.std.specs.Prelude.{take, get_or, length, slice_index, IfNone, IfOk, IfSome, IsTrue, OnOk};
ghost use Rattle.transcripts.specs.Commitments.{digest_at, IsTreeOver, root_of, row_at};
ghost use Rattle.transcripts.specs.Openings.{AreAscending, AreLeavesOf, NoFrontOpens, Opens, OpensRows};
ghost use Rattle.transcripts.specs.Openings.{OpeningsBind, OpeningsHaveOneCount, OpeningsLead};

use crate::digests::{node_digest, row_digest};
use crate::merkle_paths::{Commitment, power_of_two, row_of};
use crate::merkle_tree::MerkleTree;
use crate::{ByteHasher32, both};
use std::alloc::{AllocError, Allocator};

impl<A: Allocator> MerkleTree<A> {
    /// The nodes that open the leaves at these places, which are in ascending order, none twice, and below 2^depth. It fails if memory was
    /// refused.
    pub fn open_many<B: Allocator + Copy>(
        &self,
        alloc: B,
        places: &[usize],
    ) -> Result<Vec<[u8; 32], B>, AllocError>
        requires { AreAscending (2 ^ self.now.depth) places.now }
        ensures { IfOk result (λ nodes. (hash : List ℕ → List ℕ) (row : ℕ → List ℕ) → IsTreeOver hash row self.now
            → OpensRows hash self.now.depth (root_of self.now) places.now (λ k. row (slice_index places.now k)) nodes.items) }
    {
        let mut leaves = Vec::new(alloc);
        'leaves: for index in 0..places.len() {
            let place = places[index];
            let digest = leaf_at(self, place);
            leaves.push((place, digest))?;
        }
        let mut nodes = Vec::new(alloc);
        push_nodes(self, 1, self.depth, 0, leaves.as_slice(), &mut nodes)?;
        Ok(nodes)
    }
}

// The digest of the leaf at a place.
fn leaf_at<A: Allocator>(tree: &MerkleTree<A>, place: usize) -> [u8; 32]
    requires { place < 2 ^ tree.now.depth }
    ensures { result ≡ digest_at tree.now (2 ^ tree.now.depth + place) }
{
    let first = power_of_two(tree.depth);
    tree.nodes[first + place]
}

// Appends the nodes that open these leaves in the tree below `node`, which is over the 2^levels places from `first` on.
fn push_nodes<A: Allocator, B: Allocator>(
    tree: &MerkleTree<A>,
    node: usize,
    levels: usize,
    first: usize,
    leaves: &[(usize, [u8; 32])],
    nodes: &mut Vec<[u8; 32], B>,
) -> Result<(), AllocError>
    requires few { levels ≤ 40 }
    requires at { node * 2 ^ levels ≡ 2 ^ tree.now.depth + first }
    requires room { first + 2 ^ levels ≤ 2 ^ tree.now.depth }
    requires leaves { AreLeavesOf tree.now first (first + 2 ^ levels) leaves.now }
    ensures { OnOk result ((gained : List (List ℕ)) × (nodes.new.items ≡ nodes.old.items ++ gained)
        × ((hash : List ℕ → List ℕ) (row : ℕ → List ℕ) → IsTreeOver hash row tree.now
        → Opens hash levels first leaves.now gained (digest_at tree.now node))) }
{
    if leaves.is_empty() {
        nodes.push(tree.nodes[node])?;
        return Ok(());
    }
    if levels == 0 {
        return Ok(());
    }
    let half = power_of_two(levels - 1);
    let middle = first + half;
    let count = count_below(leaves, middle);
    push_nodes(tree, 2 * node, levels - 1, first, &leaves[..count], nodes)?;
    push_nodes(
        tree,
        2 * node + 1,
        levels - 1,
        middle,
        &leaves[count..],
        nodes,
    )?;
    Ok(())
}

// How many of the first leaves are at places below `end`.
fn count_below(leaves: &[(usize, [u8; 32])], end: usize) -> usize
    ensures within { result ≤ length leaves.now }
    ensures below { (k : ℕ) → k < result → (get_or leaves.now k (0, [])).0 < end }
    ensures stop { result < length leaves.now → end ≤ (get_or leaves.now result (0, [])).0 }
{
    'leaves: for index in 0..leaves.len() {
        let (place, _) = leaves[index];
        if place >= end {
            return index;
        }
    }
    leaves.len()
}

/// Whether nodes open these rows, of `size` bytes each and one after the other, at these places of a tree with this root. Every node is
/// read, and places that are not in ascending order, that come twice or that are not below 2^depth are refused. It fails if memory was
/// refused.
pub fn verify_many<H: ByteHasher32, A: Allocator + Copy>(
    alloc: A,
    hasher: &H,
    commitment: Commitment,
    places: &[usize],
    rows: &[u8],
    size: usize,
    nodes: &[[u8; 32]],
) -> Result<bool, AllocError>
    requires few { commitment.depth ≤ 40 }
    requires count { length rows.now ≡ length places.now * size }
    ensures { IfOk result (λ opens. IsTrue opens ↔ OpensRows (H.digest hasher.now) commitment.depth commitment.root places.now
        (row_at size rows.now) nodes.now) }
{
    let mut leaves = Vec::new(alloc);
    'leaves: for index in 0..places.len() {
        let digest = row_digest(alloc, hasher, row_of(rows, size, index))?;
        leaves.push((places[index], digest))?;
    }
    let opens = opens_to(hasher, commitment, leaves.as_slice(), nodes);
    Ok(opens)
}

// Whether nodes open these leaves in a tree with this root.
fn opens_to<H: ByteHasher32>(
    hasher: &H,
    commitment: Commitment,
    leaves: &[(usize, [u8; 32])],
    nodes: &[[u8; 32]],
) -> bool
    requires { commitment.depth ≤ 40 }
    ensures { IsTrue result ↔ Opens (H.digest hasher.now) commitment.depth 0 leaves.now nodes.now commitment.root }
{
    let root = commitment.root;
    let Some(found) = joined(hasher, commitment.depth, 0, leaves, nodes) else {
        return false;
    };
    let (digest, used) = found;
    both(used == nodes.len(), digest == root)
}

// The digest of the root of the tree over the 2^levels places from `first` on, by these leaves and the first of the nodes, and how many
// nodes that takes.
fn joined<H: ByteHasher32>(
    hasher: &H,
    levels: usize,
    first: usize,
    leaves: &[(usize, [u8; 32])],
    nodes: &[[u8; 32]],
) -> Option<([u8; 32], usize)>
    requires few { levels ≤ 40 }
    requires room { first + 2 ^ levels ≤ 2 ^ 40 }
    ensures used { IfSome result (λ found. found.1 ≤ length nodes.now) }
    ensures opens { IfSome result (λ found. Opens (H.digest hasher.now) levels first leaves.now (take found.1 nodes.now) found.0) }
    ensures none { IfNone result (NoFrontOpens (H.digest hasher.now) levels first leaves.now nodes.now) }
{
    if leaves.is_empty() {
        return if nodes.is_empty() {
            None
        } else {
            Some((nodes[0], 1))
        };
    }
    if levels == 0 {
        let digest = only_leaf(leaves, first)?;
        return Some((digest, 0));
    }
    let half = power_of_two(levels - 1);
    let middle = first + half;
    let count = count_below(leaves, middle);
    let (left, used) = joined(hasher, levels - 1, first, &leaves[..count], nodes)?;
    let (right, more) = joined(hasher, levels - 1, middle, &leaves[count..], &nodes[used..])?;
    Some((node_digest(hasher, left, right), used + more))
}

// The digest of the only leaf, if there is one leaf and it is at this place.
fn only_leaf(leaves: &[(usize, [u8; 32])], first: usize) -> Option<[u8; 32]>
    requires { 0 < length leaves.now }
    ensures only { IfSome result (λ digest. (length leaves.now ≡ 1) × ((get_or leaves.now 0 (0, [])).0 ≡ first)
        × ((get_or leaves.now 0 (0, [])).1 ≡ digest)) }
    ensures none { IfNone result (length leaves.now ≡ 1 → (get_or leaves.now 0 (0, [])).0 ≡ first → ⊥) }
{
    let (place, digest) = leaves[0];
    if leaves.len() != 1 {
        return None;
    }
    if place != first {
        return None;
    }
    Some(digest)
}

/// States that each row that is opened leads to the root by a path of its own, for every hash function whose digests have one length.
pub fn openings_lead()
    ensures { OpeningsLead }
{}

/// States that openings of many rows bind, for every hash function whose digests have one length: two openings of one root that open
/// different rows at one place have two inputs of the hash function that differ and have one digest.
pub fn openings_bind()
    ensures { OpeningsBind }
{}

/// States that openings of the same places have as many nodes in trees of one depth, whatever the hash functions and the rows are.
pub fn openings_have_one_count()
    ensures { OpeningsHaveOneCount }
{}
