// Codes whose tables are made once, in memory of the caller or of an allocator.
ghost use Rattle.std.specs.Prelude.{◌≡◌, ◌≢◌, ℕ, ◌+◌, ◌*◌, ◌/◌, ◌<◌, ◌≤◌, ◌↔◌, ◌++◌, length, slice_index, take, IsOk, IsTrue, IfOk, IfErr, OnErr};
ghost use Rattle.field_base.specs.Interpolation.{lagrange};
ghost use Rattle.reed_solomon.specs.ByteFields.{byte_times};
ghost use Rattle.reed_solomon.specs.declared.byte_field.ByteField.TheVariants.{Qr};
ghost use Rattle.reed_solomon.specs.Parity.{HaveParityTables, MatchesParity, parity_symbol, tables_length};
ghost use Rattle.reed_solomon.specs.Shards.{AreCodewords, IsEncoded};
ghost use Rattle.reed_solomon.specs.Sizes.{HasShardSize, ShardSizeError};
ghost use Rattle.reed_solomon.specs.Tables.{AreWritten, HaveRows};

use crate::ReedSolomon;
use crate::codec::shard_size;
use crate::error::ReedSolomonError;
use crate::groups::{Columns, bytes_fit, group_size, set_rows, starts_from};
use crate::parity::{matches_parity_group, strip_of, write_parity_group};
use crate::sample::{Sample, places_from};
use crate::tables::RowTables;
use std::alloc::{AllocError, Allocator};

impl ReedSolomon {
    /// How many bytes the tables of its parity take: 32 for each pair of a shard of data and one of parity, where the shards of parity are
    /// counted up to a multiple of four.
    #[tactic(auto, using(crate::proofs::PreparedTables::tables_small))]
    pub fn tables_length(&self) -> usize
        ensures { result ≡ tables_length self.now.data_shards self.now.parity_shards }
    {
        128 * self.data_shards * ((self.parity_shards + 3) / 4)
    }

    /// Writes the tables of its parity, by which `encode_prepared` and `verify_prepared` work. `tables` has to have `tables_length` bytes.
    /// Of the tables that fill the shards of parity up to a multiple of four nothing is said. Tables that begin at a multiple of 16 are read
    /// faster.
    pub fn prepare(&self, tables: &mut [u8])
        requires { length tables.old ≡ tables_length self.now.data_shards self.now.parity_shards }
        ensures { HaveParityTables self.now.data_shards self.now.parity_shards tables.new }
    {
        let sample = Sample::of_first(self.data_shards);
        let points = places_from(self.data_shards, self.parity_shards);
        write_tables(tables, &sample, &points[..self.parity_shards]);
    }

    /// Writes the shards of parity as `encode` does, by the tables that `prepare` wrote for this code. By any other bytes it writes shards
    /// of parity of which nothing is said. `tables` has to have `tables_length` bytes.
    pub fn encode_prepared(&self, tables: &[u8], shards: &mut [u8]) -> Result<(), ReedSolomonError>
        requires { length tables.now ≡ tables_length self.now.data_shards self.now.parity_shards }
        ensures accepted { IsOk result ↔ HasShardSize (self.now.data_shards + self.now.parity_shards) (length shards.old) }
        ensures encoded { let total = self.now.data_shards + self.now.parity_shards in
            IsOk result → HaveParityTables self.now.data_shards self.now.parity_shards tables.now
            → IsEncoded self.now.data_shards total (length shards.old / total) shards.old shards.new }
        ensures data_kept { let front = self.now.data_shards * (length shards.old / (self.now.data_shards + self.now.parity_shards)) in
            IsOk result → take front shards.new ≡ take front shards.old }
        ensures long { length shards.new ≡ length shards.old }
        ensures refused { IfErr result (λ error. ShardSizeError (length shards.old) error) }
        ensures same { OnErr result (shards.new ≡ shards.old) }
    {
        let (k, m) = (self.data_shards, self.parity_shards);
        let size = shard_size(k + m, shards.len())?;
        let (front, parity) = shards.split_at_mut(k * size);
        write_prepared(front, size, k, tables, parity, m);
        Ok(())
    }

    /// Whether the shards of parity are those of the data, as `verify` says it, by the tables that `prepare` wrote for this code. By any
    /// other bytes nothing is said of the answer. `tables` has to have `tables_length` bytes.
    pub fn verify_prepared(&self, tables: &[u8], shards: &[u8]) -> Result<bool, ReedSolomonError>
        requires { length tables.now ≡ tables_length self.now.data_shards self.now.parity_shards }
        ensures accepted { IsOk result ↔ HasShardSize (self.now.data_shards + self.now.parity_shards) (length shards.now) }
        ensures answer { let total = self.now.data_shards + self.now.parity_shards in
            HaveParityTables self.now.data_shards self.now.parity_shards tables.now
            → IfOk result (λ is_whole. IsTrue is_whole ↔ AreCodewords self.now.data_shards total (length shards.now / total) shards.now) }
        ensures refused { IfErr result (λ error. ShardSizeError (length shards.now) error) }
    {
        let (k, m) = (self.data_shards, self.parity_shards);
        let size = shard_size(k + m, shards.len())?;
        Ok(matches_prepared(shards, size, k, tables, m))
    }
}

/// A code with the tables of its parity, made once: a call computes none, which counts where shards are small. They take
/// `ReedSolomon::tables_length` bytes.
#[derive(Drop)]
pub struct PreparedEncoder<A: Allocator> {
    code: ReedSolomon,
    tables: Vec<u8, A>,
    ghost set: { HaveParityTables code.data_shards code.parity_shards tables.items },
}

impl<A: Allocator> PreparedEncoder<A> {
    /// A code and its tables, in memory of `alloc`. It fails only where the allocator refuses.
    pub fn new(code: &ReedSolomon, alloc: A) -> Result<PreparedEncoder<A>, AllocError>
        ensures { IfOk result (λ encoder. (encoder.code.data_shards ≡ code.now.data_shards)
            × (encoder.code.parity_shards ≡ code.now.parity_shards)) }
    {
        let mut tables = vec![in alloc; 0; code.tables_length()]?;
        code.prepare(&mut tables);
        Ok(PreparedEncoder {
            code: *code,
            tables,
        })
    }

    /// Writes the shards of parity, as `ReedSolomon::encode` does.
    pub fn encode(&self, shards: &mut [u8]) -> Result<(), ReedSolomonError>
        ensures accepted { IsOk result ↔ HasShardSize (self.now.code.data_shards + self.now.code.parity_shards) (length shards.old) }
        ensures encoded { let total = self.now.code.data_shards + self.now.code.parity_shards in
            IsOk result → IsEncoded self.now.code.data_shards total (length shards.old / total) shards.old shards.new }
        ensures long { length shards.new ≡ length shards.old }
        ensures refused { IfErr result (λ error. ShardSizeError (length shards.old) error) }
        ensures same { OnErr result (shards.new ≡ shards.old) }
    {
        self.code.encode_prepared(&self.tables, shards)
    }

    /// Whether the shards of parity are those of the data, as `ReedSolomon::verify` does.
    pub fn verify(&self, shards: &[u8]) -> Result<bool, ReedSolomonError>
        ensures accepted { IsOk result ↔ HasShardSize (self.now.code.data_shards + self.now.code.parity_shards) (length shards.now) }
        ensures answer { let total = self.now.code.data_shards + self.now.code.parity_shards in
            IfOk result (λ is_whole. IsTrue is_whole ↔ AreCodewords self.now.code.data_shards total (length shards.now / total) shards.now) }
        ensures refused { IfErr result (λ error. ShardSizeError (length shards.now) error) }
    {
        self.code.verify_prepared(&self.tables, shards)
    }
}

// Writes the tables of the shards at these points, none of which is of the sample, four rows after four rows.
#[tactic(auto, using(crate::proofs::PreparedTables::rows_room))]
pub(crate) fn write_tables(tables: &mut [u8], sample: &Sample, points: &[u8])
    requires few { length points.now ≤ 256 }
    requires room { tables_length sample.now.count (length points.now) ≤ length tables.old }
    requires apart { (j t : ℕ) → j < sample.now.count → t < length points.now
        → slice_index sample.now.places j ≢ slice_index points.now t }
    ensures long { length tables.new ≡ length tables.old }
    ensures set { HaveRows
        (λ t j. lagrange 8 (byte_times Qr) (slice_index sample.now.places) sample.now.count j (slice_index points.now t))
        sample.now.count (length points.now) tables.new }
{
    let (k, m) = (sample.count, points.len());
    let mut rows = RowTables::empty();
    for group in 0..(m + 3) / 4 {
        let done = 4 * group;
        let next = done + group_size(m - done);
        set_rows(&mut rows.entries, sample, &points[done..next]);
        let start = 128 * k * group;
        tables[start..start + 128 * k].copy_from_slice(&rows.entries[..128 * k]);
    }
}

// Writes m shards of parity behind one another, from k shards of data, by their tables. The data are read once for each four shards of
// parity: where there are more, strip by strip, so that a strip stays in the cache.
fn write_prepared(shards: &[u8], size: usize, k: usize, tables: &[u8], parity: &mut [u8], m: usize)
    requires points { k + m ≤ 256 }
    requires some { 0 < k }
    requires listed { length tables.now ≡ tables_length k m }
    requires whole { length shards.now ≡ k * size }
    requires room { length parity.old ≡ m * size }
    ensures long { length parity.new ≡ length parity.old }
    ensures encoded { HaveParityTables k m tables.now → IsEncoded k (k + m) size (shards.now ++ parity.old) (shards.now ++ parity.new) }
{
    bytes_fit(shards);
    let starts = starts_from(0, k, size);
    let mut first = 0;
    while first < size {
        let width = strip_of(size - first, m, 8192);
        let columns = Columns { first, width };
        write_columns(shards, size, &starts[..k], tables, parity, m, columns);
        first += width;
    }
}

// Writes columns of m shards of parity behind one another, by their tables.
#[tactic(auto, using(crate::proofs::PreparedTables::tables_room))]
fn write_columns(
    shards: &[u8],
    size: usize,
    starts: &[usize],
    tables: &[u8],
    parity: &mut [u8],
    m: usize,
    columns: Columns,
)
    requires points { length starts.now + m ≤ 256 }
    requires listed { length tables.now ≡ tables_length (length starts.now) m }
    requires begun { (j : ℕ) → j < length starts.now → slice_index starts.now j ≡ j * size }
    requires some { 0 < length starts.now }
    requires whole { length shards.now ≡ length starts.now * size }
    requires room { length parity.old ≡ m * size }
    requires within { columns.first + columns.width ≤ size }
    ensures long { length parity.new ≡ length parity.old }
    ensures written { HaveParityTables (length starts.now) m tables.now
        → AreWritten (λ t column. parity_symbol (length starts.now) size shards.now t (columns.first + column)) (λ t. t * size + columns.first) m
        columns.width parity.old parity.new }
{
    let k = starts.len();
    for group in 0..(m + 3) / 4 {
        let done = 4 * group;
        let count = group_size(m - done);
        write_parity_group(
            shards,
            size,
            starts,
            &tables[128 * k * group..],
            parity,
            done,
            count,
            columns,
        );
    }
}

// Whether m shards of parity are those of the k shards of data before them, by their tables: strip by strip, as they are written.
fn matches_prepared(shards: &[u8], size: usize, k: usize, tables: &[u8], m: usize) -> bool
    requires points { k + m ≤ 256 }
    requires some { 0 < k }
    requires listed { length tables.now ≡ tables_length k m }
    requires whole { length shards.now ≡ (k + m) * size }
    ensures { HaveParityTables k m tables.now → IsTrue result ↔ AreCodewords k (k + m) size shards.now }
{
    bytes_fit(shards);
    let starts = starts_from(0, k, size);
    let mut first = 0;
    while first < size {
        let width = strip_of(size - first, m, 8192);
        let columns = Columns { first, width };
        if !matches_columns(shards, size, &starts[..k], tables, m, columns) {
            return false;
        }
        first += width;
    }
    true
}

// Whether columns of m shards of parity are those of the shards of data, by their tables.
#[tactic(auto, using(crate::proofs::PreparedTables::tables_room))]
fn matches_columns(
    shards: &[u8],
    size: usize,
    starts: &[usize],
    tables: &[u8],
    m: usize,
    columns: Columns,
) -> bool
    requires points { length starts.now + m ≤ 256 }
    requires listed { length tables.now ≡ tables_length (length starts.now) m }
    requires begun { (j : ℕ) → j < length starts.now → slice_index starts.now j ≡ j * size }
    requires some { 0 < length starts.now }
    requires whole { length shards.now ≡ (length starts.now + m) * size }
    requires within { columns.first + columns.width ≤ size }
    ensures { HaveParityTables (length starts.now) m tables.now
        → IsTrue result ↔ MatchesParity (length starts.now) size shards.now 0 m columns.first (columns.first + columns.width) }
{
    let k = starts.len();
    for group in 0..(m + 3) / 4 {
        let done = 4 * group;
        let count = group_size(m - done);
        let entries = &tables[128 * k * group..];
        if !matches_parity_group(shards, size, starts, entries, done, count, columns) {
            return false;
        }
    }
    true
}
