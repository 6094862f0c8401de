// Products of slices by one scalar, and butterflies.
//
// Few values are multiplied one after another by the split scalar, and more in lanes, sixteen at a time. A product by one scalar is a
// linear map, and from some length on it pays to make tables of it in memory, by the digits of a value to base 16.
ghost use Rattle.std.specs.Prelude.{◌≡◌, ℕ, ◌+◌, ◌-◌, ◌*◌, ◌<◌, ◌≤◌, length, map, bit_xor, slice_index, slice_set};
ghost use Rattle.std.specs.Simd.Lanes.{zip2};
ghost use Rattle.field_base.specs.Remainder.{ghash_modulus, mul_mod};
ghost use Rattle.ghash_slices.specs.Blocks.{HoldBytes, HoldsPlaces, added_at, multiplied_at};
ghost use Rattle.ghash_slices.specs.LowStages.{ghash_product};
ghost use Rattle.ghash_slices.specs.Multiples.{scalar_of};
ghost use Rattle.ghash_slices.specs.Slices.{ButterfliesRestore};
ghost use Rattle.ghash_slices.specs.Stages.{add_multiple};

use crate::blocks::{bytes_from, count_from, value_at};
use crate::multiples::Multiples;
use crate::scalar_products::{ScalarProducts, TabledScalar};
use crate::split_scalar::SplitScalar;
use crate::width::Width;
use crate::words::{number_at, put_number};
use field_base::Holds;
use std::simd::prelude::*;

/// The least number of values for which a slice, or what is left of it behind whole blocks of sixteen, is multiplied in lanes by tables in
/// registers, and not one after another.
pub const LEAST_IN_LANES: usize = 10;

/// Multiplies each value by `scalar`. From 10 values on it does so in lanes, by tables that it looks up in registers, so that no address
/// depends on a value. From 400 values on it looks up tables by the digits of the values, which it makes on the stack.
pub fn mul_slice(values: &mut [u128], scalar: u128)
    ensures { values.new ≡ map (λ x. mul_mod 128 ghash_modulus scalar x) values.old }
{
    multiply_all(values, scalar);
}

/// The butterfly of the forward transform, place by place: `lo += scalar * hi`, and then `hi += lo`. Both slices have to be of
/// one length. From 10 places on it works in lanes, and from 400 on by tables, as `mul_slice` does.
pub fn butterfly_forward(lo: &mut [u128], hi: &mut [u128], scalar: u128)
    requires { length lo.old ≡ length hi.old }
    ensures low { lo.new ≡ zip2 (add_multiple ghash_product scalar) lo.old hi.old }
    ensures high { hi.new ≡ zip2 bit_xor hi.old lo.new }
{
    add_multiples::<u64x2, u128>(lo, hi, scalar);
    add_each(hi, lo);
}

/// The butterfly of the inverse transform, place by place: `hi += lo`, and then `lo += scalar * hi`. With the same scalar it
/// restores what `butterfly_forward` changed. Both slices have to be of one length. From 10 places on it works in lanes, and
/// from 400 on by tables, as `mul_slice` does.
pub fn butterfly_inverse(lo: &mut [u128], hi: &mut [u128], scalar: u128)
    requires { length lo.old ≡ length hi.old }
    ensures high { hi.new ≡ zip2 bit_xor hi.old lo.old }
    ensures low { lo.new ≡ zip2 (add_multiple ghash_product scalar) lo.old hi.new }
{
    add_each(hi, lo);
    add_multiples::<u64x2, u128>(lo, hi, scalar);
}

/// States that the inverse butterfly after the forward one with the same scalar restores both slices.
pub fn butterflies_restore()
    ensures { ButterfliesRestore }
{}

// Multiplies each value by the scalar, as `mul_slice` does.
fn multiply_all<W: Holds<u128>>(values: &mut [W], scalar: u128)
    ensures { map W.number values.new ≡ map (λ x. mul_mod 128 ghash_modulus scalar x) (map W.number values.old) }
{
    if values.len() < LEAST_IN_LANES {
        multiply_few(values, 0, scalar);
    } else if values.len() < u64x2::LEAST_TABLED {
        multiply_in_lanes(values, &Multiples::new(scalar));
    } else {
        multiply_by_tables(values, scalar);
    }
}

/// Adds to each value the product of `scalar` and the other value at its place. The slices are of one length. From 10 values on it works in
/// lanes, and from `LEAST_TABLED` of the width on by tables in memory.
pub fn add_multiples<V: Width, W: Holds<u128>>(values: &mut [W], others: &[W], scalar: u128)
    requires { length values.old ≡ length others.now }
    ensures { map W.number values.new ≡ zip2 (add_multiple ghash_product scalar) (map W.number values.old) (map W.number others.now) }
{
    if values.len() < LEAST_IN_LANES {
        add_few(values, others, 0, scalar);
    } else if values.len() < V::LEAST_TABLED {
        add_in_lanes::<V, W>(values, others, &Multiples::new(scalar));
    } else {
        add_by_tables(values, others, scalar);
    }
}

// Multiplies the values from `start` on, of which there are few. Of none the scalar is not split.
fn multiply_few<W: Holds<u128>>(values: &mut [W], start: usize, scalar: u128)
    requires { start ≤ length values.old }
    ensures { HoldsPlaces (multiplied_at scalar (map W.number values.old)) start (length values.old) (map W.number values.old)
        (map W.number values.new) }
{
    if start < values.len() {
        multiply_each(values, start, &SplitScalar::new(scalar));
    }
}

// Multiplies the values from `start` on, one after another.
#[inline]
fn multiply_each<W: Holds<u128>, S: ScalarProducts>(values: &mut [W], start: usize, products: &S)
    requires { start ≤ length values.old }
    ensures { HoldsPlaces (multiplied_at (S.scalar products.now) (map W.number values.old)) start (length values.old)
        (map W.number values.old) (map W.number values.new) }
{
    for place in start..values.len() {
        let product = products.product(number_at(values, place));
        put_number(values, place, product);
    }
}

// Multiplies the values in blocks of sixteen, and what is left behind them.
fn multiply_in_lanes<W: Holds<u128>>(values: &mut [W], multiples: &Multiples)
    ensures { map W.number values.new ≡ map (λ x. mul_mod 128 ghash_modulus (scalar_of multiples.now) x) (map W.number values.old) }
{
    let whole = values.len() / 16;
    for block in 0..whole {
        multiply_block(values, 16 * block, multiples);
    }
    let start = 16 * whole;
    if values.len() - start < LEAST_IN_LANES {
        multiply_few(values, start, multiples.scalar());
    } else {
        multiply_block(values, start, multiples);
    }
}

// Multiplies the block of sixteen values from `start` on, or what there is of it.
fn multiply_block<W: Holds<u128>>(values: &mut [W], start: usize, multiples: &Multiples)
    requires { start ≤ length values.old }
    ensures { HoldsPlaces (multiplied_at (scalar_of multiples.now) (map W.number values.old)) start (start + 16) (map W.number values.old)
        (map W.number values.new) }
{
    let products = multiples.products(&bytes_from(values, start));
    for place in 0..count_from(values.len(), start) {
        put_number(values, start + place, value_at(&products, place));
    }
}

// Multiplies each value by tables in memory. It is apart and never inlined, since a function clears its locals when it is called, and
// the tables take 8 KiB.
#[inline(never)]
fn multiply_by_tables<W: Holds<u128>>(values: &mut [W], scalar: u128)
    ensures { map W.number values.new ≡ map (λ x. mul_mod 128 ghash_modulus scalar x) (map W.number values.old) }
{
    multiply_each(values, 0, &TabledScalar::new(scalar));
}

// Adds the products of the other values from `start` on, of which there are few.
fn add_few<W: Holds<u128>>(values: &mut [W], others: &[W], start: usize, scalar: u128)
    requires same { length values.old ≡ length others.now }
    requires inside { start ≤ length values.old }
    ensures { HoldsPlaces (added_at scalar (map W.number values.old) (map W.number others.now)) start (length values.old)
        (map W.number values.old) (map W.number values.new) }
{
    if start < values.len() {
        add_products(values, others, start, &SplitScalar::new(scalar));
    }
}

// Adds the products of the other values from `start` on, one after another.
#[inline]
fn add_products<W: Holds<u128>, S: ScalarProducts>(
    values: &mut [W],
    others: &[W],
    start: usize,
    products: &S,
)
    requires same { length values.old ≡ length others.now }
    requires inside { start ≤ length values.old }
    ensures { HoldsPlaces (added_at (S.scalar products.now) (map W.number values.old) (map W.number others.now)) start (length values.old)
        (map W.number values.old) (map W.number values.new) }
{
    for place in start..values.len() {
        add_number(values, place, products.product(number_at(others, place)));
    }
}

/// Adds to each value the product of the scalar and the other value at its place, by two blocks of sixteen while there are two, as the
/// width multiplies them, and then what is left behind them. No address depends on a value. The slices are of one length.
pub fn add_in_lanes<V: Width, W: Holds<u128>>(values: &mut [W], others: &[W], multiples: &Multiples)
    requires { length values.old ≡ length others.now }
    ensures { map W.number values.new
        ≡ zip2 (add_multiple ghash_product (scalar_of multiples.now)) (map W.number values.old) (map W.number others.now) }
{
    let pairs = values.len() / 32;
    for pair in 0..pairs {
        let start = 32 * pair;
        let first = bytes_from(others, start);
        let second = bytes_from(others, start + 16);
        let (first_products, second_products) = V::products_of_two(multiples, &first, &second);
        add_bytes(values, start, &first_products);
        add_bytes(values, start + 16, &second_products);
    }
    add_blocks(values, others, 2 * pairs, multiples);
}

// Adds the products of the other values in the blocks from number `first` on, and behind them.
fn add_blocks<W: Holds<u128>>(values: &mut [W], others: &[W], first: usize, multiples: &Multiples)
    requires same { length values.old ≡ length others.now }
    requires inside { 16 * first ≤ length values.old }
    ensures { HoldsPlaces (added_at (scalar_of multiples.now) (map W.number values.old) (map W.number others.now)) (16 * first)
        (length values.old) (map W.number values.old) (map W.number values.new) }
{
    let whole = values.len() / 16;
    for block in first..whole {
        add_block(values, others, 16 * block, multiples);
    }
    let start = 16 * whole;
    if values.len() - start < LEAST_IN_LANES {
        add_few(values, others, start, multiples.scalar());
    } else {
        add_block(values, others, start, multiples);
    }
}

// Adds the products of the block of sixteen other values from `start` on, or of what there is of it.
fn add_block<W: Holds<u128>>(values: &mut [W], others: &[W], start: usize, multiples: &Multiples)
    requires same { length values.old ≡ length others.now }
    requires inside { start ≤ length values.old }
    ensures { HoldsPlaces (added_at (scalar_of multiples.now) (map W.number values.old) (map W.number others.now)) start (start + 16)
        (map W.number values.old) (map W.number values.new) }
{
    add_bytes(
        values,
        start,
        &multiples.products(&bytes_from(others, start)),
    );
}

// Adds the sixteen values of a block to those from `start` on, or to what there is of them.
fn add_bytes<W: Holds<u128>>(values: &mut [W], start: usize, bytes: &[u8; 256])
    requires { start ≤ length values.old }
    ensures { (added : ℕ → ℕ) → HoldBytes bytes.now added
        → HoldsPlaces (λ p. bit_xor (slice_index (map W.number values.old) p) (added (p - start))) start (start + 16)
        (map W.number values.old) (map W.number values.new) }
{
    for place in 0..count_from(values.len(), start) {
        add_number(values, start + place, value_at(bytes, place));
    }
}

// Adds the products of the other values by tables in memory, apart as `multiply_by_tables` is.
#[inline(never)]
fn add_by_tables<W: Holds<u128>>(values: &mut [W], others: &[W], scalar: u128)
    requires { length values.old ≡ length others.now }
    ensures { map W.number values.new ≡ zip2 (add_multiple ghash_product scalar) (map W.number values.old) (map W.number others.now) }
{
    add_products(values, others, 0, &TabledScalar::new(scalar));
}

/// Adds to each value the other value at its place. The slices are of one length.
pub fn add_each<W: Holds<u128>>(values: &mut [W], others: &[W])
    requires { length values.old ≡ length others.now }
    ensures { map W.number values.new ≡ zip2 bit_xor (map W.number values.old) (map W.number others.now) }
{
    for place in 0..values.len() {
        add_number(values, place, number_at(others, place));
    }
}

// Adds a number to the value at a place.
#[inline(always)]
fn add_number<W: Holds<u128>>(values: &mut [W], place: usize, number: u128)
    requires { place < length values.old }
    ensures { map W.number values.new
        ≡ slice_set (map W.number values.old) place (bit_xor (slice_index (map W.number values.old) place) number) }
{
    let sum = number_at(values, place) ^ number;
    put_number(values, place, sum);
}
