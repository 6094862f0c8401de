// Missing shards that are restored by tables that are made once, for all stripes that lack the same shards.
ghost use Rattle.std.specs.Prelude.{◌≡◌, ◌≢◌, ◌⊎◌, ◌↔◌, ◌+◌, ◌-◌, ◌*◌, ◌<◌, ◌≤◌, ℕ, length, slice_index, IsOk, IfErr, OnErr};
ghost use Rattle.field_base.specs.Interpolation.{lagrange};
ghost use Rattle.reed_solomon.specs.ByteFields.{byte_times};
ghost use Rattle.reed_solomon.specs.declared.byte_field.ByteField.TheVariants.{Qr};
ghost use Rattle.reed_solomon.specs.Missing.{AreReconstructedBy, HaveMissingTables, IsReconstructedBy};
ghost use Rattle.reed_solomon.specs.Parity.{tables_length};
ghost use Rattle.reed_solomon.specs.Samples.{IsSample, symbol_at};
ghost use Rattle.reed_solomon.specs.Sizes.{CanReconstruct, FlagsError, HaveEnough, ReconstructError};
ghost use Rattle.reed_solomon.specs.Tables.{AreWritten, HaveRows};

use crate::ReedSolomon;
use crate::codec::shard_size;
use crate::error::ReedSolomonError;
use crate::groups::{bytes_fit, group_size, restore_group, starts_of};
use crate::prepared::write_tables;
use crate::rows::missing_places;
use crate::sample::{Sample, present_places};

impl ReedSolomon {
    /// Writes the tables of the missing shards, by which `reconstruct_prepared` and `reconstruct_data_prepared` restore them in every
    /// stripe that lacks the same ones: shard i is missing where `present[i]` is false. `tables` has to have `tables_length` bytes, as for
    /// `prepare`, whatever shards are missing; of the bytes behind the tables nothing is said. Tables that begin at a multiple of 16 are
    /// read faster. The error is the first that applies.
    pub fn prepare_reconstruct(
        &self,
        present: &[bool],
        tables: &mut [u8],
    ) -> Result<(), ReedSolomonError>
        requires { length tables.old ≡ tables_length self.now.data_shards self.now.parity_shards }
        ensures accepted { IsOk result ↔ HaveEnough self.now.data_shards self.now.parity_shards present.now }
        ensures prepared { IsOk result
            → HaveMissingTables self.now.data_shards (self.now.data_shards + self.now.parity_shards) present.now tables.new }
        ensures long { length tables.new ≡ length tables.old }
        ensures refused { IfErr result (FlagsError self.now.data_shards self.now.parity_shards present.now) }
        ensures same { OnErr result (tables.new ≡ tables.old) }
    {
        let total = self.total_shard_count();
        if present.len() != total {
            return Err(ReedSolomonError::InvalidShardFlags);
        }
        let sample = Sample::of_present(present, self.data_shards);
        if sample.count < self.data_shards {
            return Err(ReedSolomonError::TooFewShardsPresent);
        }
        write_missing_tables(tables, &sample, present);
        Ok(())
    }

    /// Restores the missing shards as `reconstruct` does, by the tables that `prepare_reconstruct` wrote for this code and these flags. By any
    /// other bytes it writes missing shards of which nothing is said, and those present stay. `tables` has to have `tables_length` bytes.
    pub fn reconstruct_prepared(
        &self,
        tables: &[u8],
        shards: &mut [u8],
        present: &[bool],
    ) -> Result<(), ReedSolomonError>
        requires { length tables.now ≡ tables_length self.now.data_shards self.now.parity_shards }
        ensures accepted { IsOk result ↔ CanReconstruct self.now.data_shards self.now.parity_shards present.now shards.old }
        ensures restored { let until = self.now.data_shards + self.now.parity_shards in
            IsOk result
            → AreReconstructedBy self.now.data_shards self.now.parity_shards until present.now tables.now shards.old shards.new }
        ensures long { length shards.new ≡ length shards.old }
        ensures refused { IfErr result (ReconstructError self.now.data_shards self.now.parity_shards present.now shards.old) }
        ensures same { OnErr result (shards.new ≡ shards.old) }
    {
        self.reconstruct_by(tables, shards, present, self.total_shard_count())
    }

    /// Restores the missing shards of data by the same tables, and leaves those of parity as they are, as `reconstruct_data` does.
    pub fn reconstruct_data_prepared(
        &self,
        tables: &[u8],
        shards: &mut [u8],
        present: &[bool],
    ) -> Result<(), ReedSolomonError>
        requires { length tables.now ≡ tables_length self.now.data_shards self.now.parity_shards }
        ensures accepted { IsOk result ↔ CanReconstruct self.now.data_shards self.now.parity_shards present.now shards.old }
        ensures restored { let until = self.now.data_shards in
            IsOk result
            → AreReconstructedBy self.now.data_shards self.now.parity_shards until present.now tables.now shards.old shards.new }
        ensures long { length shards.new ≡ length shards.old }
        ensures refused { IfErr result (ReconstructError self.now.data_shards self.now.parity_shards present.now shards.old) }
        ensures same { OnErr result (shards.new ≡ shards.old) }
    {
        self.reconstruct_by(tables, shards, present, self.data_shards)
    }

    // Restores the missing shards before shard `until` by tables.
    fn reconstruct_by(
        &self,
        tables: &[u8],
        shards: &mut [u8],
        present: &[bool],
        until: usize,
    ) -> Result<(), ReedSolomonError>
        requires listed { length tables.now ≡ tables_length self.now.data_shards self.now.parity_shards }
        requires until { until ≤ self.now.data_shards + self.now.parity_shards }
        ensures accepted { IsOk result ↔ CanReconstruct self.now.data_shards self.now.parity_shards present.now shards.old }
        ensures restored { IsOk result
            → AreReconstructedBy self.now.data_shards self.now.parity_shards until present.now tables.now shards.old shards.new }
        ensures long { length shards.new ≡ length shards.old }
        ensures refused { IfErr result (ReconstructError self.now.data_shards self.now.parity_shards present.now shards.old) }
        ensures same { OnErr result (shards.new ≡ shards.old) }
    {
        let total = self.total_shard_count();
        if present.len() != total {
            return Err(ReedSolomonError::InvalidShardFlags);
        }
        let size = shard_size(total, shards.len())?;
        let (places, count) = present_places(present, self.data_shards);
        if count < self.data_shards {
            return Err(ReedSolomonError::TooFewShardsPresent);
        }
        restore_missing(shards, size, &places, count, tables, present, until);
        Ok(())
    }
}

// Writes the tables of all missing shards by the sample.
fn write_missing_tables(tables: &mut [u8], sample: &Sample, present: &[bool])
    requires fit { length present.now ≤ 256 }
    requires chosen { IsSample sample.now.count present.now (length present.now) sample.now.places sample.now.count }
    requires room { tables_length sample.now.count (length present.now - sample.now.count) ≤ length tables.old }
    ensures long { length tables.new ≡ length tables.old }
    ensures prepared { HaveMissingTables sample.now.count (length present.now) present.now tables.new }
{
    let (targets, missing) = missing_places(present, present.len());
    write_tables(tables, sample, &targets[..missing]);
}

// Writes the missing shards before shard `until` by tables, of the k shards at these places.
fn restore_missing(
    shards: &mut [u8],
    size: usize,
    places: &[u8; 256],
    k: usize,
    tables: &[u8],
    present: &[bool],
    until: usize,
)
    requires some { 0 < k }
    requires fit { length present.now ≤ 256 }
    requires inside { until ≤ length present.now }
    requires whole { length shards.old ≡ length present.now * size }
    requires chosen { IsSample k present.now (length present.now) places.now k }
    requires listed { tables_length k (length present.now - k) ≤ length tables.now }
    ensures { IsReconstructedBy k (length present.now) size until present.now tables.now shards.old shards.new }
{
    bytes_fit(shards);
    let (targets, missing) = missing_places(present, until);
    restore_prepared(shards, size, places, k, tables, &targets, missing);
}

// Writes the shards at the first `count` targets, none of which is among the k that they are computed from, by their tables.
#[tactic(auto, using(crate::proofs::PreparedTables::rows_room))]
fn restore_prepared(
    shards: &mut [u8],
    size: usize,
    places: &[u8; 256],
    k: usize,
    tables: &[u8],
    targets: &[u8; 256],
    count: usize,
)
    requires some { 0 < k }
    requires sample { k ≤ 256 }
    requires few { count ≤ 256 }
    requires listed { tables_length k count ≤ length tables.now }
    requires inside { (j : ℕ) → j < k → slice_index places.now j * size + size ≤ length shards.old }
    requires room { (t : ℕ) → t < count → slice_index targets.now t * size + size ≤ length shards.old }
    requires apart { (j t : ℕ) → j < k → t < count → slice_index places.now j ≢ slice_index targets.now t }
    requires distinct { (s t : ℕ) → s < t → t < count → slice_index targets.now t ≢ slice_index targets.now s }
    ensures long { length shards.new ≡ length shards.old }
    ensures others { (i : ℕ)
        → ((t : ℕ) → t < count → (i < slice_index targets.now t * size) ⊎ (slice_index targets.now t * size + size ≤ i))
        → slice_index shards.new i ≡ slice_index shards.old i }
    ensures restored { HaveRows (λ t j. lagrange 8 (byte_times Qr) (slice_index places.now) k j (slice_index targets.now t))
        k count tables.now
        → AreWritten (λ t column. symbol_at k size (slice_index places.now) shards.old column (slice_index targets.now t))
        (λ t. slice_index targets.now t * size) count size shards.old shards.new }
{
    let starts = starts_of(places, k, size);
    for group in 0..(count + 3) / 4 {
        let done = 4 * group;
        let next = done + group_size(count - done);
        bytes_fit(shards);
        restore_group(
            shards,
            size,
            &starts[..k],
            &tables[128 * k * group..],
            &targets[done..next],
        );
    }
}
