// The width of the vectors in which several products are computed at once: what is done by it, and where it pays.
ghost use Rattle.std.specs.Prelude.{◌≡◌, ℕ, ◌+◌, ◌*◌, ◌^◌, bit_xor};
ghost use Rattle.std.specs.Simd.Lanes.{zip2};
ghost use Rattle.field_base.specs.Remainder.{ghash_modulus, mul_mod, rem};
ghost use Rattle.ghash_slices.specs.Blocks.{HoldBytes};
ghost use Rattle.ghash_slices.specs.Fours.{with_four_products};
ghost use Rattle.ghash_slices.specs.LowStages.{ghash_product};
ghost use Rattle.ghash_slices.specs.Multiples.{scalar_of};

use crate::multiples::Multiples;
use std::simd::prelude::*;
use word_carryless::{multiply_128_twice, multiply_mod_128_four_times, multiply_mod_128_twice};

/// The vectors in which several products are computed at once: `u64x2` of 128 bits, or `u64x4` of 256 bits, which is made for x86-64-v3.
/// On x86-64-v2 the narrow ones are faster.
pub trait Width {
    /// The least number of values for which the products of a slice by one scalar are looked up in tables in memory, and not computed in
    /// vectors.
    const LEAST_TABLED: usize;

    /// Four products modulo x^128 + x^7 + x^2 + x + 1, place by place.
    fn multiply_four(left: [u128; 4], right: [u128; 4]) -> [u128; 4]
        ensures { result ≡ zip2 (mul_mod 128 ghash_modulus) left right };

    /// Adds four products, place by place, to a sum of products: the low and the high half of a polynomial of which only the remainder
    /// modulo x^128 + x^7 + x^2 + x + 1 counts.
    fn add_four_products(low: u128, high: u128, left: [u128; 4], right: [u128; 4]) -> (u128, u128)
        ensures { rem 128 ghash_modulus (result.1 * 2 ^ 128 + result.0)
            ≡ with_four_products (rem 128 ghash_modulus (high * 2 ^ 128 + low)) left right };

    /// The products of a scalar and each value of two blocks of sixteen, by the scalar's multiples.
    fn products_of_two(
        multiples: &Multiples,
        first: &[u8; 256],
        second: &[u8; 256],
    ) -> ([u8; 256], [u8; 256])
        ensures { (one other : ℕ → ℕ) → HoldBytes first.now one → HoldBytes second.now other
            → HoldBytes result.0 (λ e. ghash_product (scalar_of multiples.now) (one e))
            × HoldBytes result.1 (λ e. ghash_product (scalar_of multiples.now) (other e)) };
}

impl Width for u64x2 {
    const LEAST_TABLED: usize = 400;

    #[inline(always)]
    fn multiply_four(left: [u128; 4], right: [u128; 4]) -> [u128; 4] {
        let (a, b) = multiply_mod_128_twice(left[0], left[1], right[0], right[1]);
        let (c, d) = multiply_mod_128_twice(left[2], left[3], right[2], right[3]);
        [a, b, c, d]
    }

    // No product is reduced.
    #[inline(always)]
    fn add_four_products(low: u128, high: u128, left: [u128; 4], right: [u128; 4]) -> (u128, u128) {
        let (sum_low, sum_high) = add_two_products(low, high, left[0], left[1], right[0], right[1]);
        add_two_products(sum_low, sum_high, left[2], left[3], right[2], right[3])
    }

    // One block after the other.
    #[inline(always)]
    fn products_of_two(
        multiples: &Multiples,
        first: &[u8; 256],
        second: &[u8; 256],
    ) -> ([u8; 256], [u8; 256]) {
        (multiples.products(first), multiples.products(second))
    }
}

impl Width for u64x4 {
    // In vectors of 256 bits they are faster at every length than tables.
    const LEAST_TABLED: usize = usize::MAX;

    #[inline(always)]
    fn multiply_four(left: [u128; 4], right: [u128; 4]) -> [u128; 4] {
        multiply_mod_128_four_times(left, right)
    }

    // The products are reduced in their lanes, so that nothing is added to the high half.
    #[inline(always)]
    fn add_four_products(low: u128, high: u128, left: [u128; 4], right: [u128; 4]) -> (u128, u128) {
        let products = multiply_mod_128_four_times(left, right);
        (
            low ^ products[0] ^ products[1] ^ products[2] ^ products[3],
            high,
        )
    }

    // A row of both blocks is one vector.
    #[inline(always)]
    fn products_of_two(
        multiples: &Multiples,
        first: &[u8; 256],
        second: &[u8; 256],
    ) -> ([u8; 256], [u8; 256]) {
        multiples.products_of_two(first, second)
    }
}

// Adds two products, `a` by `p` and `b` by `q`, to the halves of a polynomial of which only the remainder counts.
#[inline(always)]
fn add_two_products(low: u128, high: u128, a: u128, b: u128, p: u128, q: u128) -> (u128, u128)
    ensures { rem 128 ghash_modulus (result.1 * 2 ^ 128 + result.0)
        ≡ bit_xor (bit_xor (rem 128 ghash_modulus (high * 2 ^ 128 + low)) (ghash_product a p)) (ghash_product b q) }
{
    let ((a_low, a_high), (b_low, b_high)) = multiply_128_twice(a, b, p, q);
    (low ^ a_low ^ b_low, high ^ a_high ^ b_high)
}
