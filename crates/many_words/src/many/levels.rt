// Written by scripts/make_impls.py; do not edit.
// The levels of 8 to 128 bits: bytes by one scalar in registers, wider words in planes of bytes; from 16 bits on, and bytes in wide vectors,
// products and inverses in slices of bits. Each level has an impl of its own: one over a bound would have the planes of a level, which nest, in
// every contract that names its elements.
use super::{Many, Sizes};
use crate::in_planes::{LEAST_IN_PLANES, add_all, multiply_all};
use crate::in_slices::{FieldInSlices, LEAST_BYTES_IN_SLICES, LEAST_IN_SLICES};
use crate::scaled_bytes::LEAST_MAPPED;
use crate::{dots, scaled_bytes};
use bit_slices::Vector;
use field_base::{Holds, Reads};
use ghash_slices::Width;
use word_tower::{Bits8, Bits16, Bits32, Bits64, Bits128, Tower};

// Bytes are inverted by tables, and multiplied by them but for many in wide vectors.
impl Many<u8, u8> for Tower<Bits8> {
    #[inline(always)]
    fn sizes<V: Vector>() -> Sizes {
        Sizes {
            multiplied: if V::lanes() < 256 {
                usize::MAX
            } else {
                LEAST_BYTES_IN_SLICES
            },
            block: V::lanes(),
            scaled: LEAST_MAPPED,
            inverted: usize::MAX,
        }
    }

    fn multiply_all<V: Width + Vector>(products: &mut [u8], words: &[u8]) {
        Tower::<Bits8>::multiply_in_slices::<V, u8>(products, words);
    }

    fn multiply_all_by<V: Width>(words: &mut [u8], scalar: u8) {
        scaled_bytes::multiply_all::<Tower<Bits8>>(words, scalar);
    }

    fn write_multiples<V: Width>(words: &[u8], scalar: u8, products: &mut [u8]) {
        scaled_bytes::write_all::<Tower<Bits8>>(words, scalar, products);
    }

    fn add_multiples<V: Width>(sums: &mut [u8], words: &[u8], scalar: u8) {
        scaled_bytes::add_all::<Tower<Bits8>>(sums, words, scalar);
    }
}

impl Many<u16, u16> for Tower<Bits16> {
    #[inline(always)]
    fn sizes<V: Vector>() -> Sizes {
        Sizes {
            multiplied: LEAST_IN_SLICES,
            block: V::lanes(),
            scaled: LEAST_IN_PLANES,
            inverted: LEAST_IN_SLICES,
        }
    }

    fn multiply_all_by<V: Width>(words: &mut [u16], scalar: u16) {
        multiply_all::<u16, u16, Tower<Bits16>>(words, scalar);
    }

    fn add_multiples<V: Width>(sums: &mut [u16], words: &[u16], scalar: u16) {
        add_all::<u16, u16, Tower<Bits16>>(sums, words, scalar);
    }

    fn multiply_all<V: Width + Vector>(products: &mut [u16], words: &[u16]) {
        Tower::<Bits16>::multiply_in_slices::<V, u16>(products, words);
    }

    fn invert_all<V: Vector>(words: &mut [u16]) {
        Tower::<Bits16>::invert_in_slices::<V, u16>(words);
    }

    #[inline]
    fn dot_product<V: Width + Vector, P: Reads<u16>>(left: &[P], right: &[P]) -> u16 {
        dots::dot_product::<u16, P, Tower<Bits16>>(left, right)
    }
}

impl Many<u32, u32> for Tower<Bits32> {
    #[inline(always)]
    fn sizes<V: Vector>() -> Sizes {
        Sizes {
            multiplied: LEAST_IN_SLICES,
            block: V::lanes(),
            scaled: LEAST_IN_PLANES,
            inverted: LEAST_IN_SLICES,
        }
    }

    fn multiply_all_by<V: Width>(words: &mut [u32], scalar: u32) {
        multiply_all::<u32, u32, Tower<Bits32>>(words, scalar);
    }

    fn add_multiples<V: Width>(sums: &mut [u32], words: &[u32], scalar: u32) {
        add_all::<u32, u32, Tower<Bits32>>(sums, words, scalar);
    }

    fn multiply_all<V: Width + Vector>(products: &mut [u32], words: &[u32]) {
        Tower::<Bits32>::multiply_in_slices::<V, u32>(products, words);
    }

    fn invert_all<V: Vector>(words: &mut [u32]) {
        Tower::<Bits32>::invert_in_slices::<V, u32>(words);
    }

    #[inline]
    fn dot_product<V: Width + Vector, P: Reads<u32>>(left: &[P], right: &[P]) -> u32 {
        dots::dot_product::<u32, P, Tower<Bits32>>(left, right)
    }
}

impl Many<u64, u64> for Tower<Bits64> {
    #[inline(always)]
    fn sizes<V: Vector>() -> Sizes {
        Sizes {
            multiplied: LEAST_IN_SLICES,
            block: V::lanes(),
            scaled: LEAST_IN_PLANES,
            inverted: LEAST_IN_SLICES,
        }
    }

    fn multiply_all_by<V: Width>(words: &mut [u64], scalar: u64) {
        multiply_all::<u64, u64, Tower<Bits64>>(words, scalar);
    }

    fn add_multiples<V: Width>(sums: &mut [u64], words: &[u64], scalar: u64) {
        add_all::<u64, u64, Tower<Bits64>>(sums, words, scalar);
    }

    fn multiply_all<V: Width + Vector>(products: &mut [u64], words: &[u64]) {
        Tower::<Bits64>::multiply_in_slices::<V, u64>(products, words);
    }

    fn invert_all<V: Vector>(words: &mut [u64]) {
        Tower::<Bits64>::invert_in_slices::<V, u64>(words);
    }

    #[inline]
    fn dot_product<V: Width + Vector, P: Reads<u64>>(left: &[P], right: &[P]) -> u64 {
        dots::dot_product::<u64, P, Tower<Bits64>>(left, right)
    }
}

impl<W: Holds<u128>> Many<u128, W> for Tower<Bits128> {
    #[inline(always)]
    fn sizes<V: Vector>() -> Sizes {
        Sizes {
            multiplied: LEAST_IN_SLICES,
            block: V::lanes(),
            scaled: LEAST_IN_PLANES,
            inverted: LEAST_IN_SLICES,
        }
    }

    fn multiply_all_by<V: Width>(words: &mut [W], scalar: W) {
        multiply_all::<u128, W, Tower<Bits128>>(words, scalar);
    }

    fn add_multiples<V: Width>(sums: &mut [W], words: &[W], scalar: W) {
        add_all::<u128, W, Tower<Bits128>>(sums, words, scalar);
    }

    fn multiply_all<V: Width + Vector>(products: &mut [W], words: &[W]) {
        Tower::<Bits128>::multiply_in_slices::<V, W>(products, words);
    }

    fn invert_all<V: Vector>(words: &mut [W]) {
        Tower::<Bits128>::invert_in_slices::<V, W>(words);
    }

    #[inline]
    fn dot_product<V: Width + Vector, P: Reads<u128>>(left: &[P], right: &[P]) -> u128 {
        dots::dot_product::<u128, P, Tower<Bits128>>(left, right)
    }
}
