// Products of bytes modulo x^8 + x^4 + x^3 + x + 1 (FIPS 197, section 4.2) in lanes, by shift and add: for each bit of the right
// factor, the highest first, the product so far is doubled, and the left factor is added where the bit is set. Nothing is looked up.
ghost use Rattle.std.specs.Prelude.{◌≡◌};
ghost use Rattle.std.specs.Simd.Lanes.{zip2};
ghost use Rattle.field_base.specs.Remainder.{aes_modulus, mul_mod};

use std::simd::prelude::*;

// The modulus without x^8.
const TAIL: u8 = 0x1b;

/// The products of the bytes, lane by lane, in any number of lanes.
#[inline(always)]
pub fn multiply_byte_lanes<const N: usize>(left: Simd<u8, N>, right: Simd<u8, N>) -> Simd<u8, N>
    ensures { result ≡ zip2 (mul_mod 8 aes_modulus) left.entry right.entry }
{
    let zero: Simd<u8, N> = Simd::splat(0);
    let highest: Simd<u8, N> = Simd::splat(128);
    let tail: Simd<u8, N> = Simd::splat(TAIL);
    let mut product = zero;
    let mut rest = right;
    for bit in 0..8usize {
        let carried = product.simd_ge(highest).select(tail, zero);
        let added = rest.simd_ge(highest).select(left, zero);
        product = (product + product) ^ carried ^ added;
        rest = rest + rest;
    }
    product
}

/// Sixteen products, lane by lane.
#[inline(always)]
pub fn multiply_16_bytes(left: u8x16, right: u8x16) -> u8x16
    ensures { result ≡ zip2 (mul_mod 8 aes_modulus) left right }
{
    multiply_byte_lanes(left, right)
}

/// Thirty-two products, lane by lane.
#[inline(always)]
pub fn multiply_32_bytes(left: u8x32, right: u8x32) -> u8x32
    ensures { result ≡ zip2 (mul_mod 8 aes_modulus) left right }
{
    multiply_byte_lanes(left, right)
}
