// Products of matrices of bytes as sums of products of matrices over GF(2).
ghost use Rattle.std.specs.Prelude.{◌≡◌, ◌+◌, ◌-◌, ◌*◌, ◌<◌, ◌≤◌, ℕ, bit_xor, length, slice_index};
ghost use Rattle.std.specs.Int.{bit_at};
ghost use Rattle.field_slices.specs.Matrices.{IsMatrixProduct, product_entry};
ghost use Rattle.bits_packed.specs.BitMatrices.{IsRangeWritten, bit_entry, word_of};
ghost use Rattle.bits_packed.specs.BytesAsBits.{HasByteBlock, IsBlockAdded, bilinear_product, sums_product};

use crate::byte_sums::{Block, first_byte, least, write_sums};
use crate::products::multiply_strip;
use crate::rows::clear;
use crate::tables::Strip;
use std::simd::prelude::*;

// The words of a row of the product of a block.
const ALL_WORDS: Strip = Strip {
    words: 8,
    start: 0,
    width: 8,
};

// A product goes by blocks of 512 rows and 512 columns: for each mask the masked sums of both matrices are multiplied over GF(2), and the
// weight is added where that product is 1.

/// Writes the product of two matrices of bytes to `target`: entry (i, j) is the sum over k of the products of entry (i, k) of `left` and
/// entry (k, j) of `right`. `forms` says what the product of two bytes is: of pairs of a mask and a weight, the sum of the weights of those
/// masks of which both bytes have an odd number of bits. `left` has `rows` rows of `inner` bytes, `right` has `inner` rows of `columns`
/// bytes, and `target` has `rows` rows of `columns` bytes. It takes no memory but 64 KiB of the stack.
pub fn multiply_bytes_into(
    forms: &[(u8, u8)],
    target: &mut [u8],
    left: &[u8],
    right: &[u8],
    rows: usize,
    inner: usize,
    columns: usize,
)
    requires left { length left.now ≡ rows * inner }
    requires right { length right.now ≡ inner * columns }
    requires shape { length target.old ≡ rows * columns }
    ensures shape { length target.new ≡ length target.old }
    ensures product { IsMatrixProduct (bilinear_product forms.now) rows inner columns (word_of inner left.now) (word_of columns right.now)
        (word_of columns target.new) }
{
    for place in 0..target.len() {
        target[place] = 0;
    }
    // Without columns there may be more rows than memory has places.
    if columns == 0 {
        return;
    }
    for band in 0..rows.div_ceil(512) {
        let row = 512 * band;
        let block = Block {
            width: columns,
            row,
            rows: least(512, rows - row),
            column: 0,
            columns,
        };
        add_band(forms, target, left, right, block, inner);
    }
}

// Adds the product to up to 512 whole rows.
fn add_band(
    forms: &[(u8, u8)],
    target: &mut [u8],
    left: &[u8],
    right: &[u8],
    band: Block,
    inner: usize,
)
    requires rows { band.rows ≤ 512 }
    requires columns { band.columns ≡ band.width }
    requires first { band.column ≡ 0 }
    requires left { (band.row + band.rows) * inner ≤ length left.now }
    requires right { length right.now ≡ inner * band.width }
    requires target { (band.row + band.rows) * band.width ≤ length target.old }
    ensures { IsBlockAdded band.width band.row band.rows 0 band.width
        (product_entry (bilinear_product forms.now) inner (word_of inner left.now) (word_of band.width right.now)) target.old target.new }
{
    for strip in 0..band.width.div_ceil(512) {
        let column = 512 * strip;
        let block = Block {
            column,
            columns: least(512, band.width - column),
            ..band
        };
        add_block(forms, target, left, right, block, inner);
    }
}

// Adds the product to a block of up to 512 rows and 512 columns.
fn add_block(
    forms: &[(u8, u8)],
    target: &mut [u8],
    left: &[u8],
    right: &[u8],
    block: Block,
    inner: usize,
)
    requires rows { block.rows ≤ 512 }
    requires columns { block.columns ≤ 512 }
    requires left { (block.row + block.rows) * inner ≤ length left.now }
    requires right { length right.now ≡ inner * block.width }
    requires target { HasByteBlock block.width block.row block.rows block.column block.columns (length target.old) }
    ensures { IsBlockAdded block.width block.row block.rows block.column block.columns
        (product_entry (bilinear_product forms.now) inner (word_of inner left.now) (word_of block.width right.now)) target.old target.new }
{
    let mut product = [0; 4096];
    for index in 0..forms.len() {
        let (mask, weight) = forms[index];
        multiply_sums(&mut product, mask, left, right, block, inner);
        add_weights(target, block, weight, &product);
    }
}

// Writes the product of the masked sums of a block, a row of 512 places after the other: 128 places of the rows of the left matrix at a
// time.
fn multiply_sums(
    product: &mut [u64],
    mask: u8,
    left: &[u8],
    right: &[u8],
    block: Block,
    inner: usize,
)
    requires room { length product.old ≡ 4096 }
    requires rows { block.rows ≤ 512 }
    requires columns { block.columns ≤ 512 }
    requires some { 0 < block.columns }
    requires across { block.column + block.columns ≤ block.width }
    requires left { (block.row + block.rows) * inner ≤ length left.now }
    requires right { length right.now ≡ inner * block.width }
    ensures room { length product.new ≡ 4096 }
    ensures sums { (i j : ℕ) → i < block.rows → j < block.columns → bit_entry 8 product.new i j
        ≡ sums_product mask inner block.width left.now right.now (block.row + i) (block.column + j) }
{
    let mut left_sums = [0; 1024];
    let mut right_sums = [0; 1024];
    let mut tables = [0; 2048];
    clear(product, 0, 4096);
    for part in 0..inner.div_ceil(128) {
        let from = 128 * part;
        let count = least(128, inner - from);
        let words = count.div_ceil(64);
        let rows = left_part(block, inner, from, count);
        write_sums(
            &mut left_sums[..words * block.rows],
            words,
            mask,
            left,
            rows,
        );
        write_sums(
            &mut right_sums[..8 * count],
            8,
            mask,
            right,
            right_part(block, from, count),
        );
        multiply_strip(
            &mut product[..8 * block.rows],
            &left_sums[..words * block.rows],
            &right_sums[..8 * count],
            &mut tables,
            ALL_WORDS,
            block.rows,
            count,
        );
    }
}

// The columns of the left matrix from one on, in the rows of a block of the product.
fn left_part(block: Block, inner: usize, from: usize, count: usize) -> Block
    ensures width { result.width ≡ inner }
    ensures row { result.row ≡ block.row }
    ensures rows { result.rows ≡ block.rows }
    ensures column { result.column ≡ from }
    ensures columns { result.columns ≡ count }
{
    Block {
        width: inner,
        row: block.row,
        rows: block.rows,
        column: from,
        columns: count,
    }
}

// The rows of the right matrix from one on, in the columns of a block of the product.
fn right_part(block: Block, from: usize, count: usize) -> Block
    ensures width { result.width ≡ block.width }
    ensures row { result.row ≡ from }
    ensures rows { result.rows ≡ count }
    ensures column { result.column ≡ block.column }
    ensures columns { result.columns ≡ block.columns }
{
    Block {
        width: block.width,
        row: from,
        rows: count,
        column: block.column,
        columns: block.columns,
    }
}

// Adds a weight to the bytes of a block at whose places the product is 1.
fn add_weights(target: &mut [u8], block: Block, weight: u8, product: &[u64])
    requires rows { 8 * block.rows ≤ length product.now }
    requires columns { block.columns ≤ 512 }
    requires block { HasByteBlock block.width block.row block.rows block.column block.columns (length target.old) }
    ensures { IsBlockAdded block.width block.row block.rows block.column block.columns
        (λ i j. weight * bit_entry 8 product.now (i - block.row) (j - block.column)) target.old target.new }
{
    for row in 0..block.rows {
        let first = first_byte(target.len(), block, row);
        add_to_row(target, first, block.columns, weight, product, row);
    }
}

// Adds a weight to the bytes of a row at whose places a row of the product is 1: eight after the other, and what is left.
fn add_to_row(
    target: &mut [u8],
    first: usize,
    count: usize,
    weight: u8,
    product: &[u64],
    row: usize,
)
    requires row { 8 * row + 8 ≤ length product.now }
    requires columns { count ≤ 512 }
    requires inside { first + count ≤ length target.old }
    ensures { IsRangeWritten first count
        (λ p. bit_xor (slice_index target.old (first + p)) (weight * bit_entry 8 product.now row p)) target.old target.new }
{
    let groups = count / 8;
    for group in 0..groups {
        let bits = (product[8 * row + group / 8] >> (8 * (group % 8))) % 256;
        add_to_eight(target, first + 8 * group, weight, bits as u8);
    }
    for place in 8 * groups..count {
        let bit = (product[8 * row + place / 64] >> (place % 64)) % 2;
        target[first + place] ^= weight * bit as u8;
    }
}

// Adds a weight to those of eight bytes whose bit is 1.
#[inline(always)]
fn add_to_eight(target: &mut [u8], first: usize, weight: u8, bits: u8)
    requires { first + 8 ≤ length target.old }
    ensures { IsRangeWritten first 8 (λ p. bit_xor (slice_index target.old (first + p)) (weight * bit_at bits p)) target.old target.new }
{
    let places = u8x8::from_array([1, 2, 4, 8, 16, 32, 64, 128]);
    let have = (u8x8::splat(bits) & places).simd_eq(places);
    let added = have.select(u8x8::splat(weight), u8x8::splat(0));
    let sums = u8x8::from_slice(&target[first..]) ^ added;
    sums.copy_to_slice(&mut target[first..]);
}
