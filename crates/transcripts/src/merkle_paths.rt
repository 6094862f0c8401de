// Commitments to words or rows of bytes, and their openings, by Merkle trees.
ghost use Rattle.std.specs.Prelude.{◌≡◌, ◌↔◌, ◌+◌, ◌*◌, ◌/◌, ◌%◌, ◌^◌, ◌<◌, ◌≤◌, ℕ, List, length, slice_index, vec_len, IfOk, IsTrue};
ghost use Rattle.transcripts.specs.Commitments.{IsTreeOf, IsTreeOver, root_of, row_at};
ghost use Rattle.transcripts.specs.MerkleTrees.{ending, Leads, PathsBind, RowLeads, RowPathsBind, merkle_root, rows_root};

use crate::ByteHasher32;
use crate::caps::{verify_row_to_cap, verify_to_cap};
use crate::digests::{join_leaves, leaf_digest, pair_digest, row_digest};
use crate::merkle_tree::MerkleTree;
use std::alloc::{AllocError, Allocator};

/// A commitment to 2^depth words, or rows of bytes: the root of their tree.
#[derive(Clone, Copy)]
pub struct Commitment {
    /// The number of nodes on the way from a leaf to the root.
    pub depth: usize,
    /// The root.
    pub root: [u8; 32],
}

impl<A: Allocator> MerkleTree<A> {
    /// The tree over 2^depth words, depth from 0 to 40. It fails if memory was refused.
    pub fn new<H: ByteHasher32>(
        alloc: A,
        hasher: &H,
        words: &[u64],
        depth: usize,
    ) -> Result<MerkleTree<A>, AllocError>
        requires few { depth ≤ 40 }
        requires count { length words.now ≡ 2 ^ depth }
        ensures { IfOk result (λ tree. IsTreeOf (H.digest hasher.now) words.now tree) }
    {
        let leaves = words.len();
        let mut nodes = vec![in alloc; [0; 32]; 2 * leaves]?;
        'leaves: for index in 0..leaves {
            let digest = leaf_digest(hasher, words[index]);
            nodes[leaves + index] = digest;
        }
        join_leaves(hasher, nodes.as_mut_slice(), leaves);
        Ok(MerkleTree { depth, nodes })
    }

    /// The tree over 2^depth rows of `size` bytes each, one after the other, depth from 0 to 40. The bytes of a row are copied one row
    /// at a time, by `scratch`. It fails if memory was refused.
    pub fn over_rows<H: ByteHasher32, B: Allocator + Copy>(
        alloc: A,
        scratch: B,
        hasher: &H,
        rows: &[u8],
        size: usize,
        depth: usize,
    ) -> Result<MerkleTree<A>, AllocError>
        requires few { depth ≤ 40 }
        requires count { length rows.now ≡ 2 ^ depth * size }
        ensures { IfOk result (λ tree. (tree.depth ≡ depth) × IsTreeOver (H.digest hasher.now) (row_at size rows.now) tree) }
    {
        let leaves = power_of_two(depth);
        let mut nodes = vec![in alloc; [0; 32]; 2 * leaves]?;
        'leaves: for index in 0..leaves {
            let digest = row_digest(scratch, hasher, row_of(rows, size, index))?;
            nodes[leaves + index] = digest;
        }
        join_leaves(hasher, nodes.as_mut_slice(), leaves);
        Ok(MerkleTree { depth, nodes })
    }

    /// The commitment to the words, or to the rows, of the tree.
    pub fn commitment(&self) -> Commitment
        ensures depth { result.depth ≡ self.now.depth }
        ensures held { result.root ≡ root_of self.now }
        ensures rows { (hash : List ℕ → List ℕ) (row : ℕ → List ℕ) → IsTreeOver hash row self.now
            → result.root ≡ rows_root hash self.now.depth row }
        ensures root { (hash : List ℕ → List ℕ) (words : List ℕ) → IsTreeOf hash words self.now
            → result.root ≡ merkle_root hash self.now.depth (slice_index words) }
    {
        Commitment {
            depth: self.depth,
            root: self.nodes[1],
        }
    }

    /// The path from the leaf at `index`, below 2^depth, to the root: the siblings of the nodes on the way. It fails if memory was
    /// refused.
    pub fn open<B: Allocator>(&self, alloc: B, index: usize) -> Result<Vec<[u8; 32], B>, AllocError>
        requires { index < 2 ^ self.now.depth }
        ensures rows { IfOk result (λ path. (hash : List ℕ → List ℕ) (row : ℕ → List ℕ) → IsTreeOver hash row self.now
            → RowLeads hash self.now.depth (root_of self.now) index (row index) path.items) }
        ensures words { IfOk result (λ path. (hash : List ℕ → List ℕ) (words : List ℕ) → IsTreeOf hash words self.now
            → Leads hash self.now.depth (root_of self.now) index (slice_index words index) path.items) }
    {
        let path = self.open_to_cap(alloc, index, self.depth)?;
        Ok(path)
    }
}

/// 2^levels.
pub fn power_of_two(levels: usize) -> usize
    requires { levels ≤ 40 }
    ensures power { result ≡ 2 ^ levels }
    ensures few { result ≤ 2 ^ 40 }
{
    1 << levels
}

/// Row `index` of rows of so many bytes, or symbols, each.
pub fn row_of<T>(rows: &[T], size: usize, index: usize) -> &[T]
    requires { (index + 1) * size ≤ length rows.now }
    ensures { result.now ≡ row_at size rows.now index }
{
    &rows[index * size..][..size]
}

// The other child of the same node.
pub(crate) fn sibling_of(node: usize) -> usize
    requires { node + 1 < 2 ^ 64 }
    ensures even { node % 2 ≡ 0 → result ≡ node + 1 }
    ensures odd { node % 2 ≡ 1 → result + 1 ≡ node }
{
    if node % 2 == 0 { node + 1 } else { node - 1 }
}

/// Whether a path leads from this word at `index` to the root.
pub fn verify<H: ByteHasher32>(
    hasher: &H,
    commitment: Commitment,
    index: usize,
    word: u64,
    path: &[[u8; 32]],
) -> bool
    ensures { IsTrue result ↔ Leads (H.digest hasher.now) commitment.depth commitment.root index word path.now }
{
    let root = commitment.root;
    verify_to_cap(hasher, &[root], commitment.depth, index, word, path)
}

/// Whether a path leads from this row at `index` to the root. It fails if memory was refused.
pub fn verify_row<H: ByteHasher32, A: Allocator>(
    alloc: A,
    hasher: &H,
    commitment: Commitment,
    index: usize,
    row: &[u8],
    path: &[[u8; 32]],
) -> Result<bool, AllocError>
    ensures { IfOk result (λ leads. IsTrue leads ↔ RowLeads (H.digest hasher.now) commitment.depth commitment.root index row.now
        path.now) }
{
    let root = commitment.root;
    let leads = verify_row_to_cap(alloc, hasher, &[root], commitment.depth, index, row, path)?;
    Ok(leads)
}

// The place and the digest at the end of a path from the child at `place` up.
pub(crate) fn end_of<H: ByteHasher32>(
    hasher: &H,
    place: usize,
    digest: [u8; 32],
    path: &[[u8; 32]],
) -> (usize, [u8; 32])
    ensures place { result.0 ≡ place / 2 ^ length path.now }
    ensures digest { result.1 ≡ ending (H.digest hasher.now) place digest path.now }
{
    if path.is_empty() {
        return (place, digest);
    }
    let above = pair_digest(hasher, place, digest, path[0]);
    end_of(hasher, place / 2, above, &path[1..])
}

/// States that a commitment binds, for every hash function whose digests have one length: two paths that lead from different words
/// at one index to one root have two inputs of the hash function along them that differ and have one digest.
pub fn paths_bind()
    ensures { PathsBind }
{}

/// States the same of rows of bytes: two paths that lead from different rows at one index to one root have such a collision.
pub fn row_paths_bind()
    ensures { RowPathsBind }
{}
