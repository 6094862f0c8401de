// Masked sums of the bits of bytes, packed: 64 bytes give one word.
ghost use Rattle.std.specs.Prelude.{◌≡◌, ◌+◌, ◌*◌, ◌<◌, ◌≤◌, ◌^◌, ℕ, if◌then◌else◌, length, nat_lt, slice_index};
ghost use Rattle.std.specs.Int.{bit_at};
ghost use Rattle.bits_packed.specs.BitMatrices.{bit_entry};
ghost use Rattle.bits_packed.specs.BytesAsBits.{AreBitsWritten, HasByteBlock, block_entry, masked_sum};

use std::simd::prelude::*;
use word_tables::entry_sums;

// A block of a matrix of bytes that has `width` columns: `rows` rows from `row` on, and `columns` columns from `column` on.
#[derive(Clone, Copy)]
pub(crate) struct Block {
    pub(crate) width: usize,
    pub(crate) row: usize,
    pub(crate) rows: usize,
    pub(crate) column: usize,
    pub(crate) columns: usize,
}

// The place of the first byte of a row of a block in a matrix of `len` bytes.
pub(crate) fn first_byte(len: usize, block: Block, row: usize) -> usize
    requires block { HasByteBlock block.width block.row block.rows block.column block.columns len }
    requires row { row < block.rows }
    ensures is { result ≡ (block.row + row) * block.width + block.column }
    ensures inside { result + block.columns ≤ len }
{
    (block.row + row) * block.width + block.column
}

// Writes the masked sums of a block: row i of them is `words` words from word `i * words` on, and behind the columns they are 0.
pub(crate) fn write_sums(bits: &mut [u64], words: usize, mask: u8, matrix: &[u8], block: Block)
    requires few { words ≤ 8 }
    requires room { length bits.old ≡ block.rows * words }
    requires block { HasByteBlock block.width block.row block.rows block.column block.columns (length matrix.now) }
    ensures shape { length bits.new ≡ length bits.old }
    ensures sums { (i j : ℕ) → i < block.rows → j < 64 * words → bit_entry words bits.new i j
        ≡ masked_sum mask (block_entry block.width matrix.now block.row block.column block.columns i j) }
{
    for row in 0..block.rows {
        write_row_sums(bits, words, mask, matrix, block, row);
    }
}

// The same of one row.
fn write_row_sums(bits: &mut [u64], words: usize, mask: u8, matrix: &[u8], block: Block, row: usize)
    requires few { words ≤ 8 }
    requires room { length bits.old ≡ block.rows * words }
    requires block { HasByteBlock block.width block.row block.rows block.column block.columns (length matrix.now) }
    requires row { row < block.rows }
    ensures { AreBitsWritten (row * words) words
        (λ w b. masked_sum mask (block_entry block.width matrix.now block.row block.column block.columns row (64 * w + b)))
        bits.old bits.new }
{
    let first = first_byte(matrix.len(), block, row);
    for word in 0..words {
        let done = least(64 * word, block.columns);
        let count = least(block.columns - done, 64);
        bits[row * words + word] = sums_of(mask, matrix, first + done, count);
    }
}

// The lesser of two numbers.
pub(crate) fn least(x: usize, y: usize) -> usize
    ensures is { result ≡ if nat_lt x y then x else y }
    ensures first { result ≤ x }
    ensures second { result ≤ y }
{
    if x < y { x } else { y }
}

// The masked sums of up to 64 bytes from a place on; behind these the bits are 0.
fn sums_of(mask: u8, bytes: &[u8], start: usize, count: usize) -> u64
    requires few { count ≤ 64 }
    requires inside { start + count ≤ length bytes.now }
    ensures { (b : ℕ) → b < 64 → bit_at result b ≡ masked_sum mask (if nat_lt b count then slice_index bytes.now (start + b) else 0) }
{
    if count == 64 {
        return sums_of_block(mask, bytes, start);
    }
    let mut padded = [0; 64];
    padded[..count].copy_from_slice(&bytes[start..start + count]);
    sums_of_block(mask, &padded, 0)
}

// The masked sums of the 64 bytes from a place on.
#[inline(always)]
fn sums_of_block(mask: u8, bytes: &[u8], start: usize) -> u64
    requires { start + 64 ≤ length bytes.now }
    ensures { (b : ℕ) → b < 64 → bit_at result b ≡ masked_sum mask (slice_index bytes.now (start + b)) }
{
    let low = sums_in_lanes(mask, u8x32::from_slice(&bytes[start..]));
    let high = sums_in_lanes(mask, u8x32::from_slice(&bytes[start + 32..]));
    low | (high << 32)
}

// The sums of the bits of the numbers below 16.
const SUMS: [u8; 16] = [0, 1, 1, 0, 1, 0, 0, 1, 1, 0, 0, 1, 0, 1, 1, 0];

// The masked sums of 32 bytes.
#[inline(always)]
fn sums_in_lanes(mask: u8, bytes: u8x32) -> u64
    ensures few { result < 2 ^ 32 }
    ensures sums { (b : ℕ) → b < 32 → bit_at result b ≡ masked_sum mask (slice_index bytes b) }
{
    let sums = u8x16::from_array(SUMS);
    let masked = bytes & u8x32::splat(mask);
    entry_sums(sums, sums, masked)
        .simd_eq(u8x32::splat(1))
        .to_bitmask()
}
