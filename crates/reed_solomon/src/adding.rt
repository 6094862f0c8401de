// One shard that is added to another: one of data to one of parity, by the tables of a code, and any by a factor. So it goes for shards
// that stand apart, and for data that come shard by shard.
ghost use Rattle.std.specs.Prelude.{◌≡◌, ◌+◌, ◌<◌, ◌≤◌, ℕ, length, slice_index, bit_xor};
ghost use Rattle.std.specs.Simd.Lanes.{chunk, put_chunk, zip2};
ghost use Rattle.reed_solomon.specs.Adding.{AddsMultiple, AddsShard};
ghost use Rattle.reed_solomon.specs.Parity.{HaveParityTables, tables_length};
ghost use Rattle.reed_solomon.specs.Tables.{nibble_sum};

use crate::ReedSolomon;
use crate::groups::bytes_fit;
use crate::lanes::nibble_sums;
use crate::tables::set_row;
use std::simd::prelude::*;

impl ReedSolomon {
    /// Adds to `sums`, byte by byte, the products of a shard of data by its factor in a shard of parity, by the tables that `prepare` wrote
    /// for this code; by any other bytes nothing is said of `sums`. Once each shard of data was added to zeros, in any order, `sums` is
    /// that shard of parity. `tables` has to have `tables_length` bytes, and `shard` as many as `sums`; both shards are counted from 0.
    #[tactic(auto, using(crate::proofs::AddedShards::entries_room))]
    pub fn add_shard(
        &self,
        tables: &[u8],
        data_shard: usize,
        parity_shard: usize,
        shard: &[u8],
        sums: &mut [u8],
    )
        requires listed { length tables.now ≡ tables_length self.now.data_shards self.now.parity_shards }
        requires of_data { data_shard < self.now.data_shards }
        requires of_parity { parity_shard < self.now.parity_shards }
        requires same { length shard.now ≡ length sums.old }
        ensures long { length sums.new ≡ length sums.old }
        ensures added { HaveParityTables self.now.data_shards self.now.parity_shards tables.now
            → AddsShard self.now.data_shards parity_shard data_shard shard.now sums.old sums.new }
    {
        bytes_fit(shard);
        let group = 128 * self.data_shards * (parity_shard / 4);
        add_row(
            sums,
            shard,
            tables,
            group + 128 * data_shard + 32 * (parity_shard % 4),
        );
    }

    /// Adds to each byte of `sums` the product of the byte of `shard` at its place by the factor, in the field of every code. `shard` has to
    /// have as many bytes as `sums`.
    pub fn add_multiple(factor: u8, shard: &[u8], sums: &mut [u8])
        requires { length shard.now ≡ length sums.old }
        ensures long { length sums.new ≡ length sums.old }
        ensures added { AddsMultiple factor shard.now sums.old sums.new }
    {
        bytes_fit(shard);
        let mut entries = [0; 128];
        set_row(&mut entries, 0, &[factor; 256], 1);
        add_row(sums, shard, &entries, 0);
    }
}

// Adds to each sum the product of the byte at its place by the factor whose 32 entries begin at `start`.
fn add_row(sums: &mut [u8], shard: &[u8], entries: &[u8], start: usize)
    requires same { length shard.now ≡ length sums.old }
    requires inside { start + 32 ≤ length entries.now }
    ensures long { length sums.new ≡ length sums.old }
    ensures added { (column : ℕ) → column < length sums.old → slice_index sums.new column
        ≡ bit_xor (slice_index sums.old column) (nibble_sum entries.now start (slice_index shard.now column)) }
{
    let blocks = sums.len() / 32;
    for block in 0..blocks {
        let bytes = u8x32::from_slice(&shard[32 * block..]);
        add_block(sums, 32 * block, nibble_sums(entries, start, bytes));
    }
    for place in 32 * blocks..sums.len() {
        sums[place] ^= byte_product(entries, start, shard[place]);
    }
}

// Adds 32 bytes to those from a place on.
#[inline(always)]
fn add_block(sums: &mut [u8], place: usize, bytes: u8x32)
    requires inside { place + 32 ≤ length sums.old }
    requires lanes { length bytes ≡ 32 }
    ensures { sums.new ≡ put_chunk place sums.old (zip2 bit_xor (chunk place 32 sums.old) bytes) }
{
    (u8x32::from_slice(&sums[place..]) ^ bytes).copy_to_slice(&mut sums[place..]);
}

// The sum of the entries of a byte's halves, of the 32 entries from `start` on.
#[inline]
fn byte_product(entries: &[u8], start: usize, byte: u8) -> u8
    requires { start + 32 ≤ length entries.now }
    ensures { result ≡ nibble_sum entries.now start byte }
{
    let half = byte as usize;
    entries[start + half % 16] ^ entries[start + 16 + half / 16]
}
