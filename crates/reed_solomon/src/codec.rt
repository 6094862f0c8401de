// The code: how many shards of data and of parity there are, and what is done with them.
ghost use Rattle.std.specs.Prelude.{◌≡◌, ◌+◌, ◌*◌, ◌/◌, ◌%◌, ◌<◌, ◌≤◌, ◌↔◌, length, IsTrue, IsOk, IfOk, IfErr, OnErr};
ghost use Rattle.reed_solomon.specs.Shards.{AreCodewords, AreReconstructed, IsEncoded};
ghost use Rattle.reed_solomon.specs.Sizes.{CanReconstruct, HasShardSize, ReconstructError, ShardSizeError};
ghost use Rattle.reed_solomon.specs.declared.error.ReedSolomonError.TheVariants.{TooFewDataShards, TooFewParityShards, TooManyShards};

use crate::error::ReedSolomonError;
use crate::parity::{matches_parity, write_parity};
use crate::rows::restore;
use crate::sample::Sample;

/// A Reed-Solomon code over bytes: so many shards of data, and so many of parity, at most 256 in all. Shard i has the values at
/// the point i of polynomials that the data determine. No call takes memory.
#[derive(Clone, Copy)]
pub struct ReedSolomon {
    pub(crate) data_shards: usize,
    pub(crate) parity_shards: usize,
    ghost some_data: { 0 < data_shards },
    ghost some_parity: { 0 < parity_shards },
    ghost few: { data_shards + parity_shards ≤ 256 },
}

impl ReedSolomon {
    /// The code with so many shards of data and of parity. The error is the first that applies.
    pub fn new(data_shards: usize, parity_shards: usize) -> Result<ReedSolomon, ReedSolomonError>
        ensures accepted { IsOk result ↔ ((0 < data_shards) × (0 < parity_shards) × (data_shards + parity_shards ≤ 256)) }
        ensures made { IfOk result (λ code. (code.data_shards ≡ data_shards) × (code.parity_shards ≡ parity_shards)) }
        ensures few_data { IfErr result (λ error. data_shards ≡ 0 → error ≡ TooFewDataShards) }
        ensures few_parity { IfErr result (λ error. 0 < data_shards → parity_shards ≡ 0 → error ≡ TooFewParityShards) }
        ensures many { IfErr result (λ error. 0 < data_shards → 0 < parity_shards → error ≡ TooManyShards) }
    {
        if data_shards == 0 {
            return Err(ReedSolomonError::TooFewDataShards);
        }
        if parity_shards == 0 {
            return Err(ReedSolomonError::TooFewParityShards);
        }
        if data_shards > 256 || parity_shards > 256 - data_shards {
            return Err(ReedSolomonError::TooManyShards);
        }
        Ok(ReedSolomon {
            data_shards,
            parity_shards,
        })
    }

    /// How many shards of data there are.
    pub fn data_shard_count(&self) -> usize
        ensures { result ≡ self.now.data_shards }
    {
        self.data_shards
    }

    /// How many shards of parity there are.
    pub fn parity_shard_count(&self) -> usize
        ensures { result ≡ self.now.parity_shards }
    {
        self.parity_shards
    }

    /// How many shards there are.
    pub fn total_shard_count(&self) -> usize
        ensures { result ≡ self.now.data_shards + self.now.parity_shards }
    {
        self.data_shards + self.parity_shards
    }

    /// Writes the shards of parity. `shards` has all shards, of one size, one after the other, and the data are read.
    pub fn encode(&self, shards: &mut [u8]) -> Result<(), ReedSolomonError>
        ensures accepted { IsOk result ↔ HasShardSize (self.now.data_shards + self.now.parity_shards) (length shards.old) }
        ensures encoded { let total = self.now.data_shards + self.now.parity_shards in
            IsOk result → IsEncoded self.now.data_shards total (length shards.old / total) shards.old shards.new }
        ensures long { length shards.new ≡ length shards.old }
        ensures refused { IfErr result (λ error. ShardSizeError (length shards.old) error) }
        ensures same { OnErr result (shards.new ≡ shards.old) }
    {
        let total = self.total_shard_count();
        let size = shard_size(total, shards.len())?;
        let (front, parity) = shards.split_at_mut(self.data_shards * size);
        write_parity(front, size, self.data_shards, parity, self.parity_shards);
        Ok(())
    }

    /// Whether the shards of parity are those of the data.
    pub fn verify(&self, shards: &[u8]) -> Result<bool, ReedSolomonError>
        ensures accepted { IsOk result ↔ HasShardSize (self.now.data_shards + self.now.parity_shards) (length shards.now) }
        ensures answer { let total = self.now.data_shards + self.now.parity_shards in
            IfOk result (λ is_whole. IsTrue is_whole ↔ AreCodewords self.now.data_shards total (length shards.now / total) shards.now) }
        ensures refused { IfErr result (λ error. ShardSizeError (length shards.now) error) }
    {
        let total = self.total_shard_count();
        let size = shard_size(total, shards.len())?;
        Ok(matches_parity(shards, size, self.data_shards, self.parity_shards))
    }

    /// Restores the missing shards, of data and of parity: shard i is missing where `present[i]` is false, and what its bytes
    /// are is then not read. The first shards that are present, as many as there are of data, determine the others; a further
    /// one is not compared. The error is the first that applies.
    pub fn reconstruct(&self, shards: &mut [u8], present: &[bool]) -> Result<(), ReedSolomonError>
        ensures accepted { IsOk result ↔ CanReconstruct self.now.data_shards self.now.parity_shards present.now shards.old }
        ensures restored { let until = self.now.data_shards + self.now.parity_shards in
            IsOk result → AreReconstructed self.now.data_shards self.now.parity_shards until present.now shards.old shards.new }
        ensures long { length shards.new ≡ length shards.old }
        ensures refused { IfErr result (ReconstructError self.now.data_shards self.now.parity_shards present.now shards.old) }
        ensures same { OnErr result (shards.new ≡ shards.old) }
    {
        self.reconstruct_until(shards, present, self.total_shard_count())
    }

    /// Restores the missing shards of data, and leaves those of parity as they are: it is `reconstruct` for readers who want the
    /// data alone.
    pub fn reconstruct_data(
        &self,
        shards: &mut [u8],
        present: &[bool],
    ) -> Result<(), ReedSolomonError>
        ensures accepted { IsOk result ↔ CanReconstruct self.now.data_shards self.now.parity_shards present.now shards.old }
        ensures restored { let until = self.now.data_shards in
            IsOk result → AreReconstructed self.now.data_shards self.now.parity_shards until present.now shards.old shards.new }
        ensures long { length shards.new ≡ length shards.old }
        ensures refused { IfErr result (ReconstructError self.now.data_shards self.now.parity_shards present.now shards.old) }
        ensures same { OnErr result (shards.new ≡ shards.old) }
    {
        self.reconstruct_until(shards, present, self.data_shards)
    }

    // Restores the missing shards before shard `until`.
    fn reconstruct_until(
        &self,
        shards: &mut [u8],
        present: &[bool],
        until: usize,
    ) -> Result<(), ReedSolomonError>
        requires { until ≤ self.now.data_shards + self.now.parity_shards }
        ensures accepted { IsOk result ↔ CanReconstruct self.now.data_shards self.now.parity_shards present.now shards.old }
        ensures restored { IsOk result
            → AreReconstructed self.now.data_shards self.now.parity_shards until present.now shards.old shards.new }
        ensures long { length shards.new ≡ length shards.old }
        ensures refused { IfErr result (ReconstructError self.now.data_shards self.now.parity_shards present.now shards.old) }
        ensures same { OnErr result (shards.new ≡ shards.old) }
    {
        let total = self.total_shard_count();
        if present.len() != total {
            return Err(ReedSolomonError::InvalidShardFlags);
        }
        let size = shard_size(total, shards.len())?;
        let sample = Sample::of_present(present, self.data_shards);
        if sample.count < self.data_shards {
            return Err(ReedSolomonError::TooFewShardsPresent);
        }
        restore(shards, size, &sample, present, until);
        Ok(())
    }
}

// The size of each of so many shards, by the bytes of all.
pub(crate) fn shard_size(count: usize, bytes: usize) -> Result<usize, ReedSolomonError>
    requires { 0 < count }
    ensures accepted { IsOk result ↔ HasShardSize count bytes }
    ensures size { IfOk result (λ size. (size ≡ bytes / count) × (bytes ≡ count * size)) }
    ensures refused { IfErr result (λ error. ShardSizeError bytes error) }
{
    if bytes == 0 {
        return Err(ReedSolomonError::EmptyShard);
    }
    if bytes % count != 0 {
        return Err(ReedSolomonError::IncorrectShardSize);
    }
    Ok(bytes / count)
}
