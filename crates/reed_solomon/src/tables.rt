// The tables of the factors of up to four rows, by which up to four shards are written from one look at the data, two at a time.
ghost use Rattle.std.specs.Prelude.{◌≡◌, ◌≢◌, ◌+◌, ◌*◌, ◌/◌, ◌%◌, ◌<◌, ◌≤◌, ℕ, length, slice_index};
ghost use Rattle.std.specs.Simd.Lanes.{chunk};
ghost use Rattle.reed_solomon.specs.Tables.{HasRow, IsEntry};

use crate::byte_field::literals::PRODUCTS;
use std::simd::prelude::*;

// Tables for all the shards that a code can have: shard j has four rows of 32 entries, from 128 j on. The field without bytes puts
// them at a multiple of 16, so that no look-up reads from two lines of the cache.
#[derive(Drop)]
pub(crate) struct RowTables {
    pub(crate) entries: [u8; 32768],
    aligned: [u128; 0],
}

impl RowTables {
    // Tables of which no row is set.
    #[inline]
    pub(crate) fn empty() -> RowTables {
        RowTables {
            entries: [0; 32768],
            aligned: [],
        }
    }
}

// The same for up to 32 shards, in memory that takes less time to clear.
#[derive(Drop)]
pub(crate) struct FewTables {
    pub(crate) entries: [u8; 4096],
    aligned: [u128; 0],
}

impl FewTables {
    // Tables of which no row is set.
    #[inline]
    pub(crate) fn empty() -> FewTables {
        FewTables {
            entries: [0; 4096],
            aligned: [],
        }
    }
}

// Sets the tables of one row by the factors of `count` shards.
pub(crate) fn set_row(entries: &mut [u8], row: usize, factors: &[u8; 256], count: usize)
    requires fit { count ≤ 256 }
    requires room { 128 * count ≤ length entries.old }
    requires within { row < 4 }
    ensures set { HasRow (slice_index factors.now) entries.new row count }
    ensures others { (i : ℕ) → i / 32 % 4 ≢ row → slice_index entries.new i ≡ slice_index entries.old i }
    ensures long { length entries.new ≡ length entries.old }
{
    for j in 0..count {
        entries_of(factors[j]).copy_to_slice(&mut entries[128 * j + 32 * row..]);
    }
}

// A factor's 32 entries, as they stand in the table of all products.
#[inline(always)]
fn entries_of(factor: u8) -> u8x32
    ensures long { length result ≡ 32 }
    ensures entries { (n : ℕ) → n < 32 → IsEntry factor n (slice_index result n) }
{
    bytes_at(&PRODUCTS, 32 * factor as usize)
}

// The 32 bytes from `start` on.
#[inline(always)]
fn bytes_at(bytes: &[u8], start: usize) -> u8x32
    requires { start + 32 ≤ length bytes.now }
    ensures { result ≡ chunk start 32 bytes.now }
{
    u8x32::from_slice(&bytes[start..])
}
