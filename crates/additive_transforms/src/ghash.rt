// Whole transforms over the field of GHASH: through the tower, where its twiddles are narrow, and by products of polynomials elsewhere.
ghost use Rattle.std.specs.Prelude.{◌≡◌, ◌↔◌, ℕ, ◌^◌, ◌<◌, ◌≤◌, IfErr, IfOk, IsTrue, length, map};
ghost use Rattle.additive_transforms.specs.Transform.{AreOnlyCoefficients, CountsPairs, FitsTransform, HasStages, HoldPolynomialValues};
ghost use Rattle.additive_transforms.specs.Images.{IsWideShift};

use crate::elements::whole::{inverse_by, transform};
use crate::images::{OfImages, change_basis};
use crate::whole::{forward_words, inverse_words};
use crate::{PolyKernel, forward_with, inverse_with};
use field_base::{Holds, Stored};
use ghash_slices::Width;
use std::alloc::{AllocError, Allocator};
use std::simd::prelude::*;
use word_tables::to_tower_128;

/// Leaves at each place p the value, at point p, of the polynomial with the coefficients `values` in the basis of the products of
/// the s_j: point p is `z`, and Cantor vector b for each set bit b of p. The length of `values` has to be 2^m for an m from 0 to 40.
/// It is `forward_with` by `PolyKernel`: `products` counts the butterflies as they are computed, rises by the m * 2^(m - 1) pairs of places,
/// and has to fit 64 bits after it. `forward_numbers` counts none, and is faster.
/// Where `alloc` refuses the twiddles, it fails, and leaves `values` and `products` untouched; with fewer than 16 values it takes no
/// memory, and does not fail.
pub fn forward<A: Allocator>(
    alloc: A,
    values: &mut [u128],
    z: u128,
    products: &mut u64,
) -> Result<(), AllocError>
    requires { FitsTransform (length values.old) products.old }
    ensures length { length values.new ≡ length values.old }
    ensures values { IfOk result (λ _. HoldPolynomialValues z values.old values.new) }
    ensures count { IfOk result (λ _. CountsPairs (length values.old) products.old products.new) }
    ensures refused { IfErr result (λ _. (values.new ≡ values.old) × (products.new ≡ products.old)) }
    ensures large { IfErr result (λ _. 16 ≤ length values.old) }
{
    let mut kernel = PolyKernel {
        products: *products,
    };
    u128::words_fit(values);
    let done = forward_with(alloc, &mut kernel, values, z);
    u128::words_fit(values);
    *products = kernel.products;
    done
}

/// Replaces the values at the points by the coefficients of their polynomial, of which there is one list: with the same `z` it
/// takes back what `forward` did. It is `inverse_with` by `PolyKernel`. Same preconditions as `forward`, and `products` rises by as much;
/// it allocates nothing. `inverse_numbers` counts none, and is faster.
pub fn inverse(values: &mut [u128], z: u128, products: &mut u64)
    requires { FitsTransform (length values.old) products.old }
    ensures length { length values.new ≡ length values.old }
    ensures coefficients { AreOnlyCoefficients z values.old values.new }
    ensures count { CountsPairs (length values.old) products.old products.new }
{
    let mut kernel = PolyKernel {
        products: *products,
    };
    u128::words_fit(values);
    inverse_with(&mut kernel, values, z);
    u128::words_fit(values);
    *products = kernel.products;
}

/// The transform `forward` without a count. The length of `values` has to be 2^m for an m from 0 to 40. Where `alloc` refuses the
/// twiddles, it fails, and leaves `values` untouched; with fewer than 16 values it takes no memory, and does not fail. Nor does it where `z`
/// is a sum of the first 32 Cantor vectors, the image of an element of the tower of at most 32 bits.
///
/// Where the tower's twiddles are narrow it goes through the tower; elsewhere its low stages go in lanes and its long butterflies by tables.
/// So over the field of GHASH it is the fastest form. Elements of any field with Cantor vectors are transformed by `forward_elements`.
pub fn forward_numbers<A: Allocator>(
    alloc: A,
    values: &mut [u128],
    z: u128,
) -> Result<(), AllocError>
    requires { (m : ℕ) × HasStages m (length values.old) }
    ensures length { length values.new ≡ length values.old }
    ensures values { IfOk result (λ _. HoldPolynomialValues z values.old values.new) }
    ensures refused { IfErr result (λ _. values.new ≡ values.old) }
    ensures large { IfErr result (λ _. 16 ≤ length values.old) }
    ensures wide { IfErr result (λ _. IsWideShift z) }
{
    if is_narrow(to_tower_128(z)) {
        transform_numbers(values, z, false);
        return Ok(());
    }
    let mut products = 0;
    forward(alloc, values, z, &mut products)
}

/// The transform `inverse` without a count: it takes back what `forward_numbers` did with the same `z`. The length of `values` has to
/// be 2^m for an m from 0 to 40. It takes no memory.
pub fn inverse_numbers(values: &mut [u128], z: u128)
    requires { (m : ℕ) × HasStages m (length values.old) }
    ensures length { length values.new ≡ length values.old }
    ensures coefficients { AreOnlyCoefficients z values.old values.new }
{
    transform_numbers(values, z, true);
}

// The transform `transform_ghash` of numbers themselves.
fn transform_numbers(values: &mut [u128], z: u128, is_inverse: bool)
    requires { (m : ℕ) × HasStages m (length values.old) }
    ensures length { length values.new ≡ length values.old }
    ensures values { ¬ IsTrue is_inverse → HoldPolynomialValues z values.old values.new }
    ensures coefficients { IsTrue is_inverse → AreOnlyCoefficients z values.old values.new }
{
    transform_ghash::<u64x2, u128>(values, z, is_inverse);
}

/// The transform `forward` of words that hold numbers, where they lie, without a count, or, where `is_inverse` is true, the transform
/// `inverse`. The length of `words` has to be 2^m for an m from 0 to 40. It takes no memory.
///
/// Where the element of the tower whose image is `z` has at most 32 bits, so have all twiddles of up to 2^32 words, and the words take the way
/// through the tower; other shifts go by `forward_words` and `inverse_words`.
pub fn transform_ghash<V: Width, W: Holds<u128>>(words: &mut [W], z: u128, is_inverse: bool)
    requires { (m : ℕ) × HasStages m (length words.old) }
    ensures length { length words.new ≡ length words.old }
    ensures values { ¬ IsTrue is_inverse → HoldPolynomialValues z (map W.number words.old) (map W.number words.new) }
    ensures coefficients { IsTrue is_inverse → AreOnlyCoefficients z (map W.number words.old) (map W.number words.new) }
{
    let shift = to_tower_128(z);
    if is_narrow(shift) {
        change_basis(words, false);
        if is_inverse {
            inverse_by::<OfImages<W>>(&mut (), words, shift);
        } else {
            transform::<OfImages<W>>(&mut (), words, shift, false);
        }
        change_basis(words, true);
    } else if is_inverse {
        inverse_words::<V, W>(words, z);
    } else {
        forward_words::<V, W>(words, z);
    }
}

// Whether the twiddles from this shift on are so narrow that the way through the tower is the faster one. Both ways compute the same.
fn is_narrow(shift: u128) -> bool
    ensures { IsTrue result ↔ (shift < 2 ^ 32) }
{
    shift < 1 << 32
}
