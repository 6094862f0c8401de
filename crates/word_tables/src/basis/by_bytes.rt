// Written by scripts/make_impls.py; do not edit.
// The changes of basis of words of 64 and of 128 bits and of slices of them: the value at a word is the sum of an entry for each byte.
//
//     x = b0 + b1 256 + b2 256^2 + ..   ->   table[b0] + table[256 + b1] + table[512 + b2] + ..
ghost use Rattle.std.specs.Prelude.{◌≡◌, ℕ, ◌^◌, ◌<◌, map};
ghost use Rattle.field_base.specs.Basis.{basis_image, ghash_images, poly64_images};
ghost use Rattle.field_base.specs.Remainder.{ghash_modulus, poly64_modulus};

use crate::literals::to_polynomial::{TO_POLYNOMIAL_64, TO_POLYNOMIAL_128};
use crate::literals::to_tower::{TO_TOWER_64, TO_TOWER_128};
use field_base::byte_tables::{sum_of_entries_64, sum_of_entries_128};

/// The polynomial modulo x^64 + x^4 + x^3 + x + 1 that is the image of an element of 64 bits.
#[inline]
pub fn to_polynomial_64(x: u64) -> u64
    ensures { result ≡ basis_image 64 poly64_modulus poly64_images x }
{
    sum_of_entries_64(&TO_POLYNOMIAL_64, x)
}

/// The one element of 64 bits whose image is the polynomial `x`.
#[inline]
pub fn to_tower_64(x: u64) -> u64
    ensures image { basis_image 64 poly64_modulus poly64_images result ≡ x }
    ensures only { (a : ℕ) → a < 2 ^ 64 → basis_image 64 poly64_modulus poly64_images a ≡ x → a ≡ result }
{
    sum_of_entries_64(&TO_TOWER_64, x)
}

/// Replaces each element of 64 bits by its image, a polynomial modulo x^64 + x^4 + x^3 + x + 1.
#[tactic(auto, using(crate::proofs::SliceSteps::value_written))]
pub fn to_polynomial_slice_64(xs: &mut [u64])
    ensures { xs.new ≡ map (basis_image 64 poly64_modulus poly64_images) xs.old }
{
    for x in xs.iter_mut() {
        *x = to_polynomial_64(*x);
    }
}

/// Replaces each polynomial modulo x^64 + x^4 + x^3 + x + 1 by the element of 64 bits whose image it is.
pub fn to_tower_slice_64(xs: &mut [u64])
    ensures { map (basis_image 64 poly64_modulus poly64_images) xs.new ≡ xs.old }
{
    for x in xs.iter_mut() {
        *x = to_tower_64(*x);
    }
}

/// The polynomial modulo x^128 + x^7 + x^2 + x + 1 that is the image of an element of 128 bits.
#[inline]
pub fn to_polynomial_128(x: u128) -> u128
    ensures { result ≡ basis_image 128 ghash_modulus ghash_images x }
{
    sum_of_entries_128(&TO_POLYNOMIAL_128, x)
}

/// The one element of 128 bits whose image is the polynomial `x`.
#[inline]
pub fn to_tower_128(x: u128) -> u128
    ensures image { basis_image 128 ghash_modulus ghash_images result ≡ x }
    ensures only { (a : ℕ) → a < 2 ^ 128 → basis_image 128 ghash_modulus ghash_images a ≡ x → a ≡ result }
{
    sum_of_entries_128(&TO_TOWER_128, x)
}

/// Replaces each element of 128 bits by its image, a polynomial modulo x^128 + x^7 + x^2 + x + 1.
#[tactic(auto, using(crate::proofs::SliceSteps::value_written))]
pub fn to_polynomial_slice_128(xs: &mut [u128])
    ensures { xs.new ≡ map (basis_image 128 ghash_modulus ghash_images) xs.old }
{
    for x in xs.iter_mut() {
        *x = to_polynomial_128(*x);
    }
}

/// Replaces each polynomial modulo x^128 + x^7 + x^2 + x + 1 by the element of 128 bits whose image it is.
pub fn to_tower_slice_128(xs: &mut [u128])
    ensures { map (basis_image 128 ghash_modulus ghash_images) xs.new ≡ xs.old }
{
    for x in xs.iter_mut() {
        *x = to_tower_128(*x);
    }
}
