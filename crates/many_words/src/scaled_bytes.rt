// Bytes of a field of up to 8 bits by one scalar, many at once: the product by the scalar is a linear map of bytes, which is looked up in
// registers by the products of the scalar and each bit.
ghost use Rattle.std.specs.Prelude.{◌≡◌, ◌+◌, ◌<◌, ◌≤◌, ℕ, bit_xor, length, map, slice_index};
ghost use Rattle.std.specs.Simd.Lanes.{chunk, zip2};
ghost use Rattle.word_tables.specs.Nibbles.{entry_sum};
ghost use Rattle.many_words.specs.Words.{Each, EachOfTwo};
ghost use Rattle.many_words.specs.Fields.{field_of, itself};
ghost use Rattle.field_base.specs.LinearMaps.{linear_image};

use crate::one_by_one::{change_all_by, multiply_each_by};
use crate::operations::ScaledSum;
use field_base::{FieldKernel, Stored};
use std::simd::prelude::*;
use word_tables::{entry_sums, map_bytes};

/// The least number of bytes that are mapped.
pub(crate) const LEAST_MAPPED: usize = 16;

// The bytes of a block.
const BLOCK: usize = 32;

/// Multiplies each byte by the scalar.
pub(crate) fn multiply_all<K: FieldKernel<u8>>(bytes: &mut [u8], scalar: u8)
    ensures long { length bytes.new ≡ length bytes.old }
    ensures products { Each (field_of itself K.width K.product K.generator) (λ x y. y ≡ K.product x scalar) bytes.old bytes.new }
{
    u8::words_fit(bytes);
    map_bytes(&images_of::<K>(scalar), bytes);
}

/// Writes the product of each byte and the scalar. The slices are of one length.
pub(crate) fn write_all<K: FieldKernel<u8>>(bytes: &[u8], scalar: u8, products: &mut [u8])
    requires { length bytes.now ≡ length products.old }
    ensures { Each (field_of itself K.width K.product K.generator) (λ x y. y ≡ K.product x scalar) bytes.now products.new }
{
    if products.len() < LEAST_MAPPED {
        products.copy_from_slice(bytes);
        multiply_each_by::<u8, u8, K>(products, scalar);
    } else if products.len() < BLOCK {
        products.copy_from_slice(bytes);
        multiply_all::<K>(products, scalar);
    } else {
        write_mapped::<K>(bytes, scalar, products);
    }
}

// `write_all` for at least a block.
fn write_mapped<K: FieldKernel<u8>>(bytes: &[u8], scalar: u8, products: &mut [u8])
    requires same { length bytes.now ≡ length products.old }
    requires block { 32 ≤ length products.old }
    ensures { Each (field_of itself K.width K.product K.generator) (λ x y. y ≡ K.product x scalar) bytes.now products.new }
{
    let (low, high) = tables_of(&images_of::<K>(scalar));
    write_in_blocks(bytes, products, low, high);
}

// Writes what the tables have at the halves of each byte. The last block may overlap the one before it.
fn write_in_blocks(bytes: &[u8], products: &mut [u8], low: u8x16, high: u8x16)
    requires same { length bytes.now ≡ length products.old }
    requires block { 32 ≤ length products.old }
    ensures long { length products.new ≡ length products.old }
    ensures products { (k : ℕ) → k < length products.new
        → slice_index products.new k ≡ entry_sum low high (slice_index bytes.now k) }
{
    let last = bytes.len() - 32;
    let end = entries_at(bytes, last, low, high);
    for block in 0..(bytes.len() - 1) / 32 {
        let start = 32 * block;
        let next = entries_at(bytes, start, low, high);
        next.copy_to_slice(&mut products[start..]);
    }
    end.copy_to_slice(&mut products[last..]);
}

/// Adds to each sum the product of the scalar and the byte at its place. The slices are of one length.
pub(crate) fn add_all<K: FieldKernel<u8>>(sums: &mut [u8], bytes: &[u8], scalar: u8)
    requires { length bytes.now ≡ length sums.old }
    ensures { EachOfTwo (field_of itself K.width K.product K.generator) (λ sum x next. next ≡ bit_xor sum (K.product scalar x)) sums.old
        bytes.now sums.new }
{
    if sums.len() < LEAST_MAPPED {
        change_all_by::<u8, u8, K, ScaledSum<u8>>(sums, bytes, &ScaledSum { scalar });
    } else if sums.len() < BLOCK {
        add_few::<K>(sums, bytes, scalar);
    } else {
        add_mapped::<K>(sums, bytes, scalar);
    }
}

// `add_all` for at most a block.
fn add_few<K: FieldKernel<u8>>(sums: &mut [u8], bytes: &[u8], scalar: u8)
    requires same { length bytes.now ≡ length sums.old }
    requires block { length sums.old ≤ 32 }
    ensures { EachOfTwo (field_of itself K.width K.product K.generator) (λ sum x next. next ≡ bit_xor sum (K.product scalar x)) sums.old
        bytes.now sums.new }
{
    let mut products = [0; BLOCK];
    let (products, _rest) = products.split_at_mut(bytes.len());
    products.copy_from_slice(bytes);
    multiply_all::<K>(products, scalar);
    for place in 0..sums.len() {
        sums[place] ^= products[place];
    }
}

// `add_all` for at least a block.
fn add_mapped<K: FieldKernel<u8>>(sums: &mut [u8], bytes: &[u8], scalar: u8)
    requires same { length bytes.now ≡ length sums.old }
    requires block { 32 ≤ length sums.old }
    ensures { EachOfTwo (field_of itself K.width K.product K.generator) (λ sum x next. next ≡ bit_xor sum (K.product scalar x)) sums.old
        bytes.now sums.new }
{
    let (low, high) = tables_of(&images_of::<K>(scalar));
    add_in_blocks(sums, bytes, low, high);
}

// Adds to each sum what the tables have at the halves of the byte at its place. The last block may overlap the one before it, so that its
// sums are taken before any is written.
fn add_in_blocks(sums: &mut [u8], bytes: &[u8], low: u8x16, high: u8x16)
    requires same { length bytes.now ≡ length sums.old }
    requires block { 32 ≤ length sums.old }
    ensures long { length sums.new ≡ length sums.old }
    ensures sums { (k : ℕ) → k < length sums.new
        → slice_index sums.new k ≡ bit_xor (slice_index sums.old k) (entry_sum low high (slice_index bytes.now k)) }
{
    let last = sums.len() - 32;
    let end = sums_at(sums, bytes, last, low, high);
    for block in 0..(sums.len() - 1) / 32 {
        let start = 32 * block;
        let next = sums_at(sums, bytes, start, low, high);
        next.copy_to_slice(&mut sums[start..]);
    }
    end.copy_to_slice(&mut sums[last..]);
}

// The sums from a place on, with what the tables have at the halves of the bytes there.
#[inline(always)]
fn sums_at(sums: &[u8], bytes: &[u8], place: usize, low: u8x16, high: u8x16) -> u8x32
    requires same { length bytes.now ≡ length sums.now }
    requires inside { place + 32 ≤ length sums.now }
    ensures { result ≡ zip2 bit_xor (chunk place 32 sums.now) (map (entry_sum low high) (chunk place 32 bytes.now)) }
{
    u8x32::from_slice(&sums[place..]) ^ entries_at(bytes, place, low, high)
}

// What the tables have at the halves of the bytes from a place on.
#[inline(always)]
fn entries_at(bytes: &[u8], place: usize, low: u8x16, high: u8x16) -> u8x32
    requires { place + 32 ≤ length bytes.now }
    ensures { result ≡ map (entry_sum low high) (chunk place 32 bytes.now) }
{
    entry_sums(low, high, u8x32::from_slice(&bytes[place..]))
}

// The tables of a linear map of bytes: its values at 0 to 15, and at 0, 16, .., 240.
fn tables_of(images: &[u8; 8]) -> (u8x16, u8x16)
    ensures { (x : ℕ) → x < 256 → entry_sum result.0 result.1 x ≡ linear_image images.now x }
{
    let mut entries = [
        0, 1, 2, 3, 4, 5, 6, 7, 8, 9, 10, 11, 12, 13, 14, 15, 0, 16, 32, 48, 64, 80, 96, 112, 128,
        144, 160, 176, 192, 208, 224, 240,
    ];
    map_bytes(images, &mut entries);
    (
        u8x16::from_slice(&entries),
        u8x16::from_slice(&entries[16..]),
    )
}

// The products of the scalar and each bit of a byte.
fn images_of<K: FieldKernel<u8>>(scalar: u8) -> [u8; 8]
    ensures { (x : ℕ) → x < 256 → linear_image result x ≡ K.product x scalar }
{
    [
        K::multiply(1, scalar),
        K::multiply(2, scalar),
        K::multiply(4, scalar),
        K::multiply(8, scalar),
        K::multiply(16, scalar),
        K::multiply(32, scalar),
        K::multiply(64, scalar),
        K::multiply(128, scalar),
    ]
}
