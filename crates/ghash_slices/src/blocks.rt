// Blocks of sixteen values of 128 bits as 256 bytes: value by value, or in rows, of which row k has byte k of each value.
ghost use Rattle.std.specs.Prelude.{◌≡◌, ℕ, ◌+◌, ◌-◌, ◌*◌, ◌/◌, ◌%◌, ◌<◌, ◌≤◌, length, map, slice_index};
ghost use Rattle.std.specs.Simd.Lanes.{chunk, put_chunk};
ghost use Rattle.ghash_slices.specs.Blocks.{HoldBytes};

use crate::words::number_at;
use field_base::Holds;
use std::simd::prelude::*;
use word_carryless::{bytes_of_128, number_of_bytes};

/// The bytes of the values from `start` on, value by value. Past the last value they are 0.
pub(crate) fn bytes_from<W: Holds<u128>>(values: &[W], start: usize) -> [u8; 256]
    requires { start ≤ length values.now }
    ensures { HoldBytes result (λ e. slice_index (map W.number values.now) (start + e)) }
{
    W::numbers_fit(values);
    let mut bytes = [0; 256];
    for place in 0..count_from(values.len(), start) {
        put_lanes(
            &mut bytes,
            16 * place,
            bytes_of_128(number_at(values, start + place)),
        );
    }
    bytes
}

/// How many of sixteen places from `start` on are below `length`.
#[inline]
pub(crate) fn count_from(length: usize, start: usize) -> usize
    requires { start ≤ length }
    ensures few { result ≤ 16 }
    ensures inside { start + result ≤ length }
    ensures all { result < 16 → start + result ≡ length }
{
    let rest = length - start;
    if rest < 16 { rest } else { 16 }
}

/// The value at a place of a block.
#[inline(always)]
pub(crate) fn value_at(bytes: &[u8; 256], place: usize) -> u128
    requires { place < 16 }
    ensures { (values : ℕ → ℕ) → HoldBytes bytes.now values → result ≡ values place }
{
    number_of_bytes(lanes_at(bytes, place))
}

/// Sixteen bytes: a row, or a value.
#[inline(always)]
pub(crate) fn lanes_at(bytes: &[u8; 256], row: usize) -> u8x16
    requires { row < 16 }
    ensures lanes { result ≡ chunk (16 * row) 16 bytes.now }
    ensures count { length result ≡ 16 }
{
    u8x16::from_slice(&bytes[16 * row..])
}

/// Writes sixteen bytes.
#[inline(always)]
pub(crate) fn put_lanes(bytes: &mut [u8], start: usize, lanes: u8x16)
    requires { start + 16 ≤ length bytes.old }
    ensures { bytes.new ≡ put_chunk start bytes.old lanes }
{
    lanes.copy_to_slice(&mut bytes[start..]);
}

/// Rows as values, and values as rows.
#[inline(always)]
pub(crate) fn transposed(bytes: &[u8; 256]) -> [u8; 256]
    ensures { (p : ℕ) → p < 256 → slice_index result p ≡ slice_index bytes.now (p / 16 + 16 * (p % 16)) }
{
    interleaved(&interleaved(&interleaved(&interleaved(bytes))))
}

// The bytes of the first half and of the second half, in turn: the eight bits of a byte's place are rotated by one. Four such rotations
// exchange the number of its row and its place in the row.
#[inline(always)]
fn interleaved(bytes: &[u8; 256]) -> [u8; 256]
    ensures { (p : ℕ) → p < 256 → slice_index result p ≡ slice_index bytes.now (p / 2 + 128 * (p % 2)) }
{
    let mut mixed = [0; 256];
    for row in 0..8 {
        let (first, second) = lanes_at(bytes, row).interleave(lanes_at(bytes, row + 8));
        put_lanes(&mut mixed, 32 * row, first);
        put_lanes(&mut mixed, 32 * row + 16, second);
    }
    mixed
}
