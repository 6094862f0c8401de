// Caps of Merkle trees, and paths to them: the levels above a cap are not opened, so that paths are shorter by its height.
ghost use Rattle.std.specs.Prelude.{◌≡◌, ◌↔◌, ◌-◌, ◌^◌, ◌<◌, ◌≤◌, ℕ, List, slice_index, IfOk, IsTrue};
ghost use Rattle.transcripts.specs.Digests.{roots_of};
ghost use Rattle.transcripts.specs.Commitments.{cap_of, IsTreeOf, IsTreeOver};
ghost use Rattle.transcripts.specs.MerkleTrees.{CapsBind, DigestLeadsToCap, LeadsToCap, RowCapsBind, RowLeadsToCap};

use crate::digests::{leaf_digest, row_digest};
use crate::merkle_paths::{end_of, sibling_of};
use crate::merkle_tree::MerkleTree;
use crate::{ByteHasher32, MerkleCap};
use std::alloc::{AllocError, Allocator};

impl<A: Allocator> MerkleTree<A> {
    /// The cap of 2^height roots, height at most the depth, which a challenger observes as it is; of height 0 it is the root alone. It
    /// fails if memory was refused.
    pub fn cap<G, B: Allocator>(
        &self,
        alloc: B,
        height: usize,
    ) -> Result<MerkleCap<G, [u8; 32], B>, AllocError>
        requires { height ≤ self.now.depth }
        ensures { IfOk result (λ cap. roots_of cap ≡ cap_of self.now height) }
    {
        let first = 1 << height;
        let roots = Vec::from_slice(alloc, &self.nodes.as_slice()[first..2 * first])?;
        Ok(MerkleCap::new(roots))
    }

    /// The path from the leaf at `index`, below 2^depth, over so many levels, at most the depth, to the cap that is as many levels above
    /// the leaves: the siblings of the nodes on the way. It fails if memory was refused.
    pub fn open_to_cap<B: Allocator>(
        &self,
        alloc: B,
        index: usize,
        levels: usize,
    ) -> Result<Vec<[u8; 32], B>, AllocError>
        requires index { index < 2 ^ self.now.depth }
        requires levels { levels ≤ self.now.depth }
        ensures rows { IfOk result (λ path. (hash : List ℕ → List ℕ) (row : ℕ → List ℕ) → IsTreeOver hash row self.now
            → RowLeadsToCap hash levels (cap_of self.now (self.now.depth - levels)) index (row index) path.items) }
        ensures words { IfOk result (λ path. (hash : List ℕ → List ℕ) (words : List ℕ) → IsTreeOf hash words self.now
            → LeadsToCap hash levels (cap_of self.now (self.now.depth - levels)) index (slice_index words index) path.items) }
    {
        let mut path = Vec::new(alloc);
        let mut node = (1 << self.depth) + index;
        'levels: for level in 0..levels {
            path.push(self.nodes[sibling_of(node)])?;
            node /= 2;
        }
        Ok(path)
    }
}

/// Whether a path leads over so many levels from this word at `index` to the cap.
pub fn verify_to_cap<H: ByteHasher32>(
    hasher: &H,
    cap: &[[u8; 32]],
    levels: usize,
    index: usize,
    word: u64,
    path: &[[u8; 32]],
) -> bool
    ensures { IsTrue result ↔ LeadsToCap (H.digest hasher.now) levels cap.now index word path.now }
{
    leads_to_cap(hasher, cap, levels, index, leaf_digest(hasher, word), path)
}

/// Whether a path leads over so many levels from this row at `index` to the cap. It fails if memory was refused.
pub fn verify_row_to_cap<H: ByteHasher32, A: Allocator>(
    alloc: A,
    hasher: &H,
    cap: &[[u8; 32]],
    levels: usize,
    index: usize,
    row: &[u8],
    path: &[[u8; 32]],
) -> Result<bool, AllocError>
    ensures { IfOk result (λ leads. IsTrue leads ↔ RowLeadsToCap (H.digest hasher.now) levels cap.now index row.now path.now) }
{
    let leaf = row_digest(alloc, hasher, row)?;
    Ok(leads_to_cap(hasher, cap, levels, index, leaf, path))
}

// Whether a path leads over so many levels from the leaf at `index` with this digest to the cap.
fn leads_to_cap<H: ByteHasher32>(
    hasher: &H,
    cap: &[[u8; 32]],
    levels: usize,
    index: usize,
    leaf: [u8; 32],
    path: &[[u8; 32]],
) -> bool
    ensures { IsTrue result ↔ DigestLeadsToCap (H.digest hasher.now) levels cap.now index leaf path.now }
{
    if path.len() != levels {
        return false;
    }
    let (place, digest) = end_of(hasher, index, leaf, path);
    if place >= cap.len() {
        return false;
    }
    digest == cap[place]
}

/// States that a cap binds, for every hash function whose digests have one length: two paths that lead from different words at one
/// index to one cap have two inputs of the hash function along them that differ and have one digest.
pub fn caps_bind()
    ensures { CapsBind }
{}

/// States the same of rows of bytes: two paths that lead from different rows at one index to one cap have such a collision.
pub fn row_caps_bind()
    ensures { RowCapsBind }
{}
