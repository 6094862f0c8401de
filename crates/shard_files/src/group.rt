// The shards of a file in one stripe: put to their places by what heads say, restored, and looked at.
ghost use Rattle.std.specs.Prelude.{◌≡◌, ℕ, List, ◌+◌, ◌*◌, ◌<◌, ◌≤◌, ◌↔◌, ◌⊎◌, drop, take};
ghost use Rattle.std.specs.Prelude.{length, false, replicate, slice_index_or, IsOk, IsTrue, IfErr, IfOk, OnErr};
ghost use Rattle.reed_solomon.specs.Shards.{present_count};
ghost use Rattle.shard_files.specs.declared.error.JoinError.TheVariants.{Memory, TooFew};
ghost use Rattle.shard_files.specs.Groups.{AreOf, HasEnough, HaveSameShards, Puts, shard_at, Takes};
ghost use Rattle.shard_files.specs.Pieces.{piece_bytes};
ghost use Rattle.shard_files.specs.Heads.{head_digest};
ghost use Rattle.shard_files.specs.Codes.{IsStripeWord};
ghost use Rattle.shard_files.specs.Stripes.{shard_total};

use crate::error::JoinError;
use crate::head::{HEAD, Head, Origin};
use crate::layout::Layout;
use crate::piece::{DIGEST, is_piece};
use std::alloc::{AllocError, Global};

/// The shards of a file in one stripe, as far as they are at hand.
#[derive(Drop)]
pub struct Group {
    pub(crate) layout: Layout,
    pub(crate) shards: Vec<u8>,
    pub(crate) present: Vec<bool>,
    ghost whole: { length shards.items ≡ (layout.origin.data_shards + layout.origin.parity_shards) * layout.origin.size },
    ghost flags: { length present.items ≡ layout.origin.data_shards + layout.origin.parity_shards },
}

impl Group {
    /// No shard of the stripe is at hand yet. It fails where memory is refused.
    pub fn new(alloc: Global, layout: Layout) -> Result<Group, JoinError>
        ensures of { IfOk result (λ group. group.layout.origin ≡ layout.origin) }
        ensures refused { IfErr result (λ error. error ≡ Memory) }
        ensures empty { IfOk result (λ group. (index : ℕ) → slice_index_or group.present.items index false ≡ false) }
    {
        let total = layout.total();
        let shards = match zeros(alloc, total, layout.origin.size as usize) {
            Ok(shards) => shards,
            Err(_) => return Err(JoinError::Memory),
        };
        let present = match absent(alloc, total) {
            Ok(present) => present,
            Err(_) => return Err(JoinError::Memory),
        };
        Ok(Group {
            layout,
            shards,
            present,
        })
    }

    /// Takes the shard that a head and a piece of the stripe were written of, if it is one of these and none of its number is at hand.
    pub fn take(&mut self, head: &[u8], stripe: u64, piece: &[u8])
        ensures kept { self.new.layout.origin ≡ self.old.layout.origin }
        ensures taken { Takes self.old.layout.origin (AreOf self.old.layout.origin stripe head.now piece.now)
            self.old.shards.items self.old.present.items self.new.shards.items self.new.present.items }
    {
        match Head::of_bytes(head) {
            Some(read) => {
                if read.origin.is_same(&self.layout.origin) {
                    self.take_piece(&read, rest_of(head, HEAD - DIGEST), stripe, piece);
                }
            }
            None => {}
        }
    }

    // Takes a shard by its head, which is of these and has this digest, and its piece, if that is one and none of its number is at hand.
    fn take_piece(&mut self, head: &Head, digest: &[u8], stripe: u64, piece: &[u8])
        requires own { head.now.origin ≡ self.old.layout.origin }
        requires digest { digest.now ≡ head_digest head.now }
        ensures kept { self.new.layout.origin ≡ self.old.layout.origin }
        ensures taken { Takes self.old.layout.origin
            (λ index shard. (head.now.index ≡ index) × (piece.now ≡ piece_bytes (head_digest head.now) stripe shard))
            self.old.shards.items self.old.present.items self.new.shards.items self.new.present.items }
    {
        if is_piece(digest, stripe, piece) {
            self.put(head.index as usize, rest_of(piece, DIGEST));
        }
    }

    // Puts a shard to its place, if it has the size of these and none of its number is at hand.
    fn put(&mut self, index: usize, shard: &[u8])
        ensures kept { self.new.layout.origin ≡ self.old.layout.origin }
        ensures put { Puts (shard_total self.old.layout.origin) self.old.layout.origin.size index shard.now
            self.old.shards.items self.old.present.items self.new.shards.items self.new.present.items }
    {
        let size = self.layout.origin.size as usize;
        if index < self.present.len() && shard.len() == size && !self.present[index] {
            let begin = index * size;
            self.shards.as_mut_slice()[begin..begin + size].copy_from_slice(shard);
            self.present[index] = true;
        }
    }

    /// What the heads of these shards say.
    pub fn origin(&self) -> Origin
        ensures { result ≡ self.now.layout.origin }
    {
        self.layout.origin
    }

    /// Whether the shard of a number is at hand.
    pub fn has(&self, index: usize) -> bool
        ensures { result ≡ slice_index_or self.now.present.items index false }
    {
        index < self.present.len() && self.present[index]
    }

    /// How many shards are at hand.
    pub fn count(&self) -> usize
        ensures { result ≡ present_count self.now.present.items }
    {
        self.present
            .iter()
            .filter(|is_present| **is_present)
            .count()
    }

    /// The bytes of a shard in the stripe. There is a shard of that number.
    pub fn shard(&self, index: usize) -> &[u8]
        requires { index < shard_total self.now.layout.origin }
        ensures { result.now ≡ shard_at self.now.layout.origin.size self.now.shards.items index }
    {
        let size = self.layout.origin.size as usize;
        let begin = index * size;
        &self.shards.as_slice()[begin..begin + size]
    }

    /// Restores the missing shards, and leaves those at hand. It fails where fewer are at hand than the data have, or else where memory is
    /// refused, of which the code by matrices takes none; then all are as they were.
    pub fn restore(&mut self, alloc: Global) -> Result<(), JoinError>
        ensures kept { (self.new.layout.origin ≡ self.old.layout.origin) × (self.new.present ≡ self.old.present) }
        ensures enough { IsOk result → self.old.layout.origin.data_shards ≤ present_count self.old.present.items }
        ensures stays { IsOk result
            → HaveSameShards self.old.layout.origin self.old.present.items self.new.shards.items self.old.shards.items }
        ensures restored { (content whole : List ℕ)
            → HasEnough self.old.layout.origin content whole self.old.shards.items self.old.present.items
            → IsOk result → self.new.shards.items ≡ whole }
        ensures refused { IfErr result (λ error.
            ((error ≡ TooFew) × (present_count self.old.present.items < self.old.layout.origin.data_shards))
            ⊎ ((error ≡ Memory) × (self.old.layout.origin.data_shards ≤ present_count self.old.present.items))) }
        ensures sure { self.old.layout.origin.code ≡ 1
            → self.old.layout.origin.data_shards ≤ present_count self.old.present.items → IsOk result }
        ensures same { OnErr result (self.new.shards.items ≡ self.old.shards.items) }
    {
        if self.count() < self.layout.origin.data_shards as usize {
            return Err(JoinError::TooFew);
        }
        self.restore_shards(alloc)
    }

    // Restores the missing shards, of which as many are at hand as the data have.
    fn restore_shards(&mut self, alloc: Global) -> Result<(), JoinError>
        requires { self.old.layout.origin.data_shards ≤ present_count self.old.present.items }
        ensures kept { (self.new.layout.origin ≡ self.old.layout.origin) × (self.new.present ≡ self.old.present) }
        ensures stays { IsOk result
            → HaveSameShards self.old.layout.origin self.old.present.items self.new.shards.items self.old.shards.items }
        ensures restored { (content whole : List ℕ)
            → HasEnough self.old.layout.origin content whole self.old.shards.items self.old.present.items
            → IsOk result → self.new.shards.items ≡ whole }
        ensures refused { IfErr result (λ error. error ≡ Memory) }
        ensures sure { self.old.layout.origin.code ≡ 1 → IsOk result }
        ensures same { OnErr result (self.new.shards.items ≡ self.old.shards.items) }
    {
        let code = self.layout.code;
        let shards = self.shards.as_mut_slice();
        match code.restore(alloc, shards, self.present.as_slice()) {
            Ok(()) => Ok(()),
            Err(_) => Err(JoinError::Memory),
        }
    }

    /// The first bytes of the stripe: its bytes of the file, once the shards are restored. The shards have so many.
    pub fn content(&self, length: usize) -> &[u8]
        requires { length ≤ shard_total self.now.layout.origin * self.now.layout.origin.size }
        ensures { result.now ≡ take length self.now.shards.items }
    {
        &self.shards.as_slice()[..length]
    }

    /// Whether the parity is that of the data. It fails where memory is refused, of which the code by matrices takes none.
    pub fn has_parity(&self, alloc: Global) -> Result<bool, JoinError>
        ensures answer { let origin = self.now.layout.origin in IfOk result (λ is_whole. IsTrue is_whole
            ↔ IsStripeWord origin.code origin.data_shards origin.parity_shards origin.size self.now.shards.items) }
        ensures refused { IfErr result (λ error. error ≡ Memory) }
        ensures sure { self.now.layout.origin.code ≡ 1 → IsOk result }
    {
        match self.layout.code.verify(alloc, self.shards.as_slice()) {
            Ok(is_whole) => Ok(is_whole),
            Err(_) => Err(JoinError::Memory),
        }
    }
}

// What stands behind so many bytes.
fn rest_of(bytes: &[u8], count: usize) -> &[u8]
    ensures { result.now ≡ drop count bytes.now }
{
    if bytes.len() < count {
        &[]
    } else {
        &bytes[count..]
    }
}

/// Whether a flag is set; none is past the end.
pub(crate) fn is_set(flags: &[bool], index: usize) -> bool
    ensures { result ≡ slice_index_or flags.now index false }
{
    index < flags.len() && flags[index]
}

// Flags of so many shards, none of which is at hand.
fn absent(alloc: Global, total: usize) -> Result<Vec<bool>, AllocError>
    ensures { IfOk result (λ flags. flags.items ≡ replicate total false) }
{
    vec![in alloc; false; total]
}

// So many zeros as so many shards have bytes.
pub(crate) fn zeros(alloc: Global, total: usize, size: usize) -> Result<Vec<u8>, AllocError>
    ensures { IfOk result (λ bytes. length bytes.items ≡ total * size) }
{
    match total.checked_mul(size) {
        Some(length) => vec![in alloc; 0u8; length],
        None => Err(AllocError),
    }
}
