// Products of bytes modulo x^8 + tail in lanes, by shift and add: for each bit of the right factor, the highest first, the product so far is
// doubled, and the left factor is added where the bit is set. Nothing is looked up.
ghost use Rattle.std.specs.Prelude.{◌≡◌, ◌+◌, ◌^◌};
ghost use Rattle.std.specs.Simd.Lanes.{zip2};
ghost use Rattle.field_base.specs.Remainder.{mul_mod};

use std::simd::prelude::*;

/// The products of the bytes modulo x^8 + `tail`, lane by lane, in any number of lanes.
#[inline(always)]
pub fn multiply_byte_lanes<const N: usize>(
    tail: u8,
    left: Simd<u8, N>,
    right: Simd<u8, N>,
) -> Simd<u8, N>
    ensures { result ≡ zip2 (mul_mod 8 (2 ^ 8 + tail)) left.entry right.entry }
{
    let zero: Simd<u8, N> = Simd::splat(0);
    let highest: Simd<u8, N> = Simd::splat(128);
    let tails: Simd<u8, N> = Simd::splat(tail);
    let mut product = zero;
    let mut rest = right;
    for bit in 0..8usize {
        let carried = product.simd_ge(highest).select(tails, zero);
        let added = rest.simd_ge(highest).select(left, zero);
        product = (product + product) ^ carried ^ added;
        rest = rest + rest;
    }
    product
}
