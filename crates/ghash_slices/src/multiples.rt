// Products of sixteen values by one scalar, in lanes: byte k of each of the values is one vector. Two such blocks go at once where a
// vector has thirty-two bytes.
//
// The product is linear in the value, so it is taken byte by byte, from the highest down (Horner's rule): the sum so far times x^8, and
// the products of the scalar by the two digits of the next byte to base 16. These and the remainders of a shift by a byte are looked up in
// registers.
ghost use Rattle.std.specs.Prelude.{◌≡◌, ℕ, ◌+◌, ◌*◌, ◌/◌, ◌%◌, ◌^◌, ◌<◌, List, [], bit_xor, length, map, slice_index, slice_index_or};
ghost use Rattle.std.specs.Simd.Lanes.{Each1, zip2};
ghost use Rattle.std.proofs.Common.{Fits, w8};
ghost use Rattle.field_base.specs.Remainder.{ghash_modulus, mul_mod};
ghost use Rattle.ghash_slices.specs.Blocks.{HoldBytes, HoldLanes, HoldRows};
ghost use Rattle.ghash_slices.specs.LowStages.{ghash_product};

use crate::blocks::{bytes_from, lanes_at, put_lanes, transposed};
use std::simd::prelude::*;
use word_carryless::{multiply_by_power_128, reduce_128};
use word_tables::{ByteVector, entry_sums, halves, joined};

/// The low and the high bytes of the products of the numbers below 16 and x^7 + x^2 + x + 1, and of 16 times those numbers.
const LOW_TAILS_LOW: [u8; 16] = [
    0, 135, 14, 137, 28, 155, 18, 149, 56, 191, 54, 177, 36, 163, 42, 173,
];

const LOW_TAILS_HIGH: [u8; 16] = [0, 0, 1, 1, 2, 2, 3, 3, 4, 4, 5, 5, 6, 6, 7, 7];

const HIGH_TAILS_LOW: [u8; 16] = [
    0, 112, 224, 144, 192, 176, 32, 80, 128, 240, 96, 16, 64, 48, 160, 208,
];

const HIGH_TAILS_HIGH: [u8; 16] = [
    0, 8, 16, 24, 33, 41, 49, 57, 67, 75, 83, 91, 98, 106, 114, 122,
];

/// The multiples of a scalar by the digits of a byte to base 16, in rows: those of the low digit, and those of the high one. They are
/// looked up in registers.
#[derive(Drop)]
pub struct Multiples {
    scalar: u128,
    low: [u8; 256],
    high: [u8; 256],
    ghost low_is: { HoldRows low (λ digit. ghash_product scalar digit) },
    ghost high_is: { HoldRows high (λ digit. ghash_product scalar (digit * 16)) },
}

impl Multiples {
    ghost use Rattle.ghash_slices.specs.Multiples.{byte_of_multiple, horner_step, scalar_of};

    /// The multiples of this scalar.
    pub fn new(scalar: u128) -> Multiples
        ensures { scalar_of result ≡ scalar }
    {
        let low = rows_of(&multiples_of(scalar));
        let high = rows_of(&multiples_of(times_power(scalar, 4)));
        Multiples { scalar, low, high }
    }

    /// The scalar.
    #[inline]
    pub(crate) fn scalar(&self) -> u128
        ensures { result ≡ scalar_of self.now }
    {
        self.scalar
    }

    /// The products of the scalar and each value of a block.
    pub(crate) fn products(&self, bytes: &[u8; 256]) -> [u8; 256]
        ensures { (values : ℕ → ℕ) → HoldBytes bytes.now values → HoldBytes result (λ e. ghash_product (scalar_of self.now) (values e)) }
    {
        let rows = transposed(bytes);
        let mut sums = [u8x16::splat(0); 16];
        for turn in 0..16 {
            self.step(&mut sums, lanes_at(&rows, 15 - turn));
        }
        transposed(&bytes_of_rows(&sums))
    }

    /// The products of the scalar and each value of two blocks, of which it looks up a row of both at once.
    pub(crate) fn products_of_two(
        &self,
        first: &[u8; 256],
        second: &[u8; 256],
    ) -> ([u8; 256], [u8; 256])
        ensures { (one other : ℕ → ℕ) → HoldBytes first.now one → HoldBytes second.now other
            → HoldBytes result.0 (λ e. ghash_product (scalar_of self.now) (one e))
            × HoldBytes result.1 (λ e. ghash_product (scalar_of self.now) (other e)) }
    {
        let sums = self.sums_of_two(&transposed(first), &transposed(second));
        let (first_sums, second_sums) = bytes_of_both(&sums);
        (transposed(&first_sums), transposed(&second_sums))
    }

    // The rows of these products: in a row stand the bytes of the first block, and then those of the second.
    #[inline(always)]
    fn sums_of_two(&self, first_rows: &[u8; 256], second_rows: &[u8; 256]) -> [u8x32; 16]
        ensures { (values : ℕ → ℕ) → HoldRows first_rows.now values → HoldRows second_rows.now (λ e. values (16 + e))
            → HoldLanes 32 result (λ e. ghash_product (scalar_of self.now) (values e)) }
    {
        let mut sums = [u8x32::splat(0); 16];
        for turn in 0..16 {
            let row = 15 - turn;
            let bytes = joined(lanes_at(first_rows, row), lanes_at(second_rows, row));
            self.step(&mut sums, bytes);
        }
        sums
    }

    // The sums become their products by x^8, with the products of the scalar by one byte more of each value. From the highest row down to
    // the third, a row is what stood in the one below it; what leaves the highest row enters the lowest two by its product with the tail.
    #[inline(always)]
    fn step<V: ByteVector>(&self, sums: &mut [V; 16], bytes: V)
        ensures { (values : ℕ → ℕ) → HoldLanes V.lanes (map V.bytes sums.old) values
            → HoldLanes V.lanes (map V.bytes sums.new) (horner_step (scalar_of self.now) values (V.bytes bytes)) }
    {
        let top = row_at(sums, 15);
        top.holds_bytes();
        for turn in 0..14 {
            let row = 15 - turn;
            let below = row_at(sums, row - 1);
            sums[row] = below.sum(self.entries(row, bytes));
        }
        let lowest = row_at(sums, 0);
        let second_tails = entry_sums(
            u8x16::from_array(LOW_TAILS_HIGH),
            u8x16::from_array(HIGH_TAILS_HIGH),
            top,
        );
        sums[1] = lowest.sum(second_tails).sum(self.entries(1, bytes));
        let first_tails = entry_sums(
            u8x16::from_array(LOW_TAILS_LOW),
            u8x16::from_array(HIGH_TAILS_LOW),
            top,
        );
        sums[0] = first_tails.sum(self.entries(0, bytes));
    }

    // Byte `row` of the products of the scalar and each byte.
    #[inline(always)]
    fn entries<V: ByteVector>(&self, row: usize, bytes: V) -> V
        requires { row < 16 }
        ensures bytes { V.bytes result ≡ map (byte_of_multiple (scalar_of self.now) row) (V.bytes bytes) }
        ensures count { length (V.bytes bytes) ≡ V.lanes }
    {
        bytes.holds_bytes();
        entry_sums(lanes_at(&self.low, row), lanes_at(&self.high, row), bytes)
    }
}

// A row of bytes. As a parameter a vector is known to have its lanes, and as an element of an array it is not.
#[inline(always)]
fn row_at<V: ByteVector>(rows: &[V; 16], row: usize) -> V
    requires { row < 16 }
    ensures bytes { V.bytes result ≡ slice_index_or (map V.bytes rows.now) row [] }
    ensures count { length (V.bytes result) ≡ V.lanes }
{
    let bytes = rows[row];
    bytes.holds_bytes();
    bytes
}

// The bytes of rows of sixteen.
#[inline(always)]
fn bytes_of_rows(rows: &[u8x16; 16]) -> [u8; 256]
    ensures { (values : ℕ → ℕ) → HoldLanes 16 rows.now values → HoldRows result values }
{
    let mut bytes = [0; 256];
    for row in 0..16 {
        put_lanes(&mut bytes, 16 * row, row_at(rows, row));
    }
    bytes
}

// The bytes of the first halves of rows of thirty-two, and those of the second halves.
#[inline(always)]
fn bytes_of_both(rows: &[u8x32; 16]) -> ([u8; 256], [u8; 256])
    ensures { (values : ℕ → ℕ) → HoldLanes 32 rows.now values → HoldRows result.0 values × HoldRows result.1 (λ e. values (16 + e)) }
{
    let mut first = [0; 256];
    let mut second = [0; 256];
    for row in 0..16 {
        let (one, other) = halves(row_at(rows, row));
        put_lanes(&mut first, 16 * row, one);
        put_lanes(&mut second, 16 * row, other);
    }
    (first, second)
}

// The rows of sixteen numbers.
fn rows_of(numbers: &[u128; 16]) -> [u8; 256]
    ensures { HoldRows result (slice_index numbers.now) }
{
    transposed(&bytes_from(numbers, 0))
}

/// The products of the scalar by the numbers below 16.
pub(crate) fn multiples_of(scalar: u128) -> [u128; 16]
    ensures { (n : ℕ) → n < 16 → slice_index result n ≡ ghash_product scalar n }
{
    let mut products = [0; 16];
    products[1] = scalar;
    for half in 1..8 {
        let even = times_power(products[half], 1);
        products[2 * half] = even;
        products[2 * half + 1] = even ^ scalar;
    }
    products
}

/// The product by x^k.
#[inline]
pub(crate) fn times_power(value: u128, k: u32) -> u128
    requires { k < 128 }
    ensures { result ≡ mul_mod 128 ghash_modulus value (2 ^ k) }
{
    let (low, high) = multiply_by_power_128(value, k);
    reduce_128(low, high)
}
