// The fields that are no levels of 8 to 128 bits: those of 1 to 4 bits and the cubic extension one word after another, bytes of AES in
// vectors of bytes, polynomials of 64 and 128 bits in slices of bits and in lanes, those of 64 bits by one scalar in planes of bytes.

use super::{Many, Sizes};
use crate::bytes::LEAST_IN_VECTORS;
use crate::in_slices::{LEAST_BY_TOWER, LEAST_IN_SLICES, invert_images};
use crate::mapped_words::polynomial_images;
use crate::scaled_bytes::LEAST_MAPPED;
use crate::{bytes, mapped_words, products, scalars, scaled_bytes};
use bit_slices::{Slices64, Slices128, Vector, multiply_polynomials_each};
use field_base::{Holds, Reads};
use ghash_slices::Width;
use word_polynomial::{
    CubicKernel, GhashKernel, GhashModulus, Poly64Kernel, Poly64Modulus, RijndaelKernel, Triple,
};
use word_tower::{Bits1, Bits2, Bits4, Bits64, Bits128, Tower};

impl Many<u8, u8> for Tower<Bits1> {}

impl Many<u8, u8> for Tower<Bits2> {}

impl Many<u8, u8> for Tower<Bits4> {}

impl Many<u8, u8> for RijndaelKernel {
    // Products go in vectors of 256 bits, whatever `V` is, and have no blocks.
    #[inline(always)]
    fn sizes<V: Vector>() -> Sizes {
        Sizes {
            multiplied: LEAST_IN_VECTORS,
            block: 1,
            scaled: LEAST_MAPPED,
            inverted: usize::MAX,
        }
    }

    fn multiply_all<V: Width + Vector>(products: &mut [u8], words: &[u8]) {
        bytes::multiply_all(products, words);
    }

    fn multiply_all_by<V: Width>(words: &mut [u8], scalar: u8) {
        scaled_bytes::multiply_all::<RijndaelKernel>(words, scalar);
    }

    fn write_multiples<V: Width>(words: &[u8], scalar: u8, products: &mut [u8]) {
        scaled_bytes::write_all::<RijndaelKernel>(words, scalar, products);
    }

    fn add_multiples<V: Width>(sums: &mut [u8], words: &[u8], scalar: u8) {
        scaled_bytes::add_all::<RijndaelKernel>(sums, words, scalar);
    }
}

impl Many<u64, u64> for Poly64Kernel {
    const LEAST_IN_BATCH: usize = LEAST_IN_SLICES;

    // In vectors of 128 bits a product of words is faster than one in slices.
    #[inline(always)]
    fn sizes<V: Vector>() -> Sizes {
        Sizes {
            multiplied: if V::lanes() < 256 {
                usize::MAX
            } else {
                LEAST_IN_SLICES
            },
            block: V::lanes(),
            scaled: mapped_words::LEAST_MAPPED,
            inverted: LEAST_BY_TOWER,
        }
    }

    fn multiply_all<V: Width + Vector>(products: &mut [u64], words: &[u64]) {
        multiply_polynomials_each::<V, u64, u64, Slices64<V>>(products, words);
    }

    fn multiply_all_by<V: Width>(words: &mut [u64], scalar: u64) {
        let images = polynomial_images(scalar);
        mapped_words::multiply_all::<Poly64Kernel, u64>(words, scalar, &images);
    }

    fn add_multiples<V: Width>(sums: &mut [u64], words: &[u64], scalar: u64) {
        let images = polynomial_images(scalar);
        mapped_words::add_all::<Poly64Kernel, u64>(sums, words, scalar, &images);
    }

    fn invert_all<V: Vector>(words: &mut [u64]) {
        invert_images::<u64, u64, Bits64, Poly64Modulus, Slices64<V>>(words);
    }
}

impl<W: Holds<u128>> Many<u128, W> for GhashKernel {
    const LEAST_IN_BATCH: usize = 40;

    // Products go by lanes, which have no blocks.
    #[inline(always)]
    fn sizes<V: Vector>() -> Sizes {
        Sizes {
            multiplied: 0,
            block: 1,
            scaled: 0,
            inverted: LEAST_BY_TOWER,
        }
    }

    #[inline]
    fn multiply_all<V: Width + Vector>(products: &mut [W], words: &[W]) {
        products::multiply_all::<V, W>(products, words);
    }

    #[inline]
    fn multiply_all_by<V: Width>(words: &mut [W], scalar: W) {
        scalars::multiply_all::<V, W>(words, scalar);
    }

    #[inline]
    fn write_multiples<V: Width>(words: &[W], scalar: W, products: &mut [W]) {
        scalars::write_multiples::<V, W>(words, scalar, products);
    }

    #[inline]
    fn add_multiples<V: Width>(sums: &mut [W], words: &[W], scalar: W) {
        scalars::add_all::<V, W>(sums, words, scalar);
    }

    fn invert_all<V: Vector>(words: &mut [W]) {
        invert_images::<u128, W, Bits128, GhashModulus, Slices128<V>>(words);
    }

    #[inline]
    fn dot_product<V: Width + Vector, P: Reads<u128>>(left: &[P], right: &[P]) -> u128 {
        products::dot_product::<V, P>(left, right)
    }
}

impl<W: Holds<Triple>> Many<Triple, W> for CubicKernel {}
