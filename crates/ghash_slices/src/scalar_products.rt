// Products of one value after another by one scalar: by the scalar split into classes, or by its products in memory.
ghost use Rattle.std.specs.Prelude.{◌≡◌, ℕ, ◌+◌, ◌-◌, ◌*◌, ◌^◌, ◌<◌, ◌≤◌, length, slice_index};
ghost use Rattle.ghash_slices.specs.Blocks.{HoldsPlaces};
ghost use Rattle.ghash_slices.specs.LowStages.{ghash_product};
ghost use Rattle.ghash_slices.specs.SplitWords.{digit_product, two_words};

use crate::multiples::{multiples_of, times_power};
use std::simd::prelude::*;
use word_carryless::{join_128, split_128};

/// What multiplies values by a scalar, one after another.
pub(crate) trait ScalarProducts {
    // The scalar.
    ghost scalar: { Self → ℕ };

    /// The product of the scalar and a value.
    fn product(&self, value: u128) -> u128
        ensures { result ≡ ghash_product (scalar self.now) value };
}

/// A scalar with its products by the digits of a value to base 16, in memory: entry 16 i + d is that by d x^(4 i). A product is the sum
/// of 32 of them, since it keeps sums.
#[derive(Drop)]
pub(crate) struct TabledScalar {
    scalar: u128,
    entries: [u128; 512],
    ghost are_products: { (p : ℕ) → p < 512 → slice_index entries p ≡ digit_product scalar p },
}

impl TabledScalar {
    /// The scalar with its tables.
    pub(crate) fn new(scalar: u128) -> TabledScalar
        ensures { result.scalar ≡ scalar }
    {
        TabledScalar {
            scalar,
            entries: digit_products(scalar),
        }
    }
}

impl ScalarProducts for TabledScalar {
    ghost scalar = { λ tabled. tabled.scalar };

    #[inline(always)]
    fn product(&self, value: u128) -> u128 {
        let (low, high) = split_128(value);
        let sums = sum_of_entries(&self.entries, low, 0) ^ sum_of_entries(&self.entries, high, 16);
        let words = sums.to_array();
        join_128(words[0], words[1])
    }
}

// The products of the scalar by the digits.
fn digit_products(scalar: u128) -> [u128; 512]
    ensures { (p : ℕ) → p < 512 → slice_index result p ≡ digit_product scalar p }
{
    let mut products = [0; 512];
    for row in 0..32 {
        let multiples = multiples_of(times_power(scalar, 4 * row as u32));
        put_row(&mut products, 16 * row, &multiples);
    }
    products
}

// Writes sixteen numbers.
fn put_row(numbers: &mut [u128], start: usize, row: &[u128; 16])
    requires { start + 16 ≤ length numbers.old }
    ensures { HoldsPlaces (λ p. slice_index row.now (p - start)) start (start + 16) numbers.old numbers.new }
{
    for place in 0..16 {
        numbers[start + place] = row[place];
    }
}

// The sum of the entries at the digits of a word of a value, whose digits come from digit `first` on, in two lanes.
#[inline(always)]
fn sum_of_entries(entries: &[u128; 512], word: u64, first: usize) -> u64x2
    requires { first ≤ 16 }
    ensures { (scalar : ℕ) → ((p : ℕ) → p < 512 → slice_index entries.now p ≡ digit_product scalar p)
        → result ≡ two_words (ghash_product scalar (word * 2 ^ (4 * first))) }
{
    let mut sum = u64x2::splat(0);
    for digit in 0..16 {
        let place = 16 * (first + digit) + ((word >> (4 * digit)) % 16) as usize;
        sum ^= lanes_of(entries[place]);
    }
    sum
}

// A number in two lanes.
#[inline(always)]
fn lanes_of(number: u128) -> u64x2
    ensures { result ≡ two_words number }
{
    let (low, high) = split_128(number);
    u64x2::from_array([low, high])
}
