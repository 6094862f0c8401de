// The carryless product of words.
//
// Half a word is multiplied by integer products of its four classes of bits (see `masked`). Twice as many bits take
// three products by Karatsuba's rule, where `+` is exclusive or:
//
//     (a1 B + a0)(b1 B + b0) = a1 b1 B^2 + ((a1 + a0)(b1 + b0) + a1 b1 + a0 b0) B + a0 b0
ghost use Rattle.std.specs.Prelude.{◌≡◌, ◌%◌, ◌*◌, ◌+◌, ◌^◌, ◌<◌};
ghost use Rattle.field_base.specs.Carryless.{carryless};
ghost use Rattle.word_carryless.specs.Karatsuba.{karatsuba_sum};

use crate::masked::{multiply_low_64, multiply_low_words};
use crate::split::{split_64, split_128};
use std::simd::u64x2;

/// The carryless product of two half words.
pub fn multiply_32(x: u32, y: u32) -> u64
    ensures { result ≡ carryless x y }
{
    multiply_low_64(x as u64, y as u64)
}

/// The carryless product of two words.
pub fn multiply_64(x: u64, y: u64) -> u128
    ensures { result ≡ carryless x y }
{
    let (x0, x1) = split_64(x);
    let (y0, y1) = split_64(y);
    let (low, high) = multiply_32_twice(x0, x1, y0, y1);
    join_halves(low, high, multiply_32(x0 ^ x1, y0 ^ y1))
}

/// Two carryless products of words, `a` by `p` and `b` by `q`.
///
/// The six products of half words that they take are computed in pairs.
pub fn multiply_64_twice(a: u64, b: u64, p: u64, q: u64) -> (u128, u128)
    ensures first { result.0 ≡ carryless a p }
    ensures second { result.1 ≡ carryless b q }
{
    let (a0, a1) = split_64(a);
    let (b0, b1) = split_64(b);
    let (p0, p1) = split_64(p);
    let (q0, q1) = split_64(q);
    let (first_low, first_high) = multiply_32_twice(a0, a1, p0, p1);
    let (second_low, second_high) = multiply_32_twice(b0, b1, q0, q1);
    let (first_both, second_both) = multiply_32_twice(a0 ^ a1, b0 ^ b1, p0 ^ p1, q0 ^ q1);
    (
        join_halves(first_low, first_high, first_both),
        join_halves(second_low, second_high, second_both),
    )
}

/// The carryless product of two double words, low half first.
pub fn multiply_128(x: u128, y: u128) -> (u128, u128)
    ensures { carryless x y ≡ result.1 * 2 ^ 128 + result.0 }
{
    let (x0, x1) = split_128(x);
    let (y0, y1) = split_128(y);
    let (low, high) = multiply_64_twice(x0, x1, y0, y1);
    let middle = multiply_64(x0 ^ x1, y0 ^ y1) ^ low ^ high;
    (low ^ (middle << 64), high ^ (middle >> 64))
}

/// The carryless product of a double word by x^k, low half first.
#[tactic(auto, using(crate::proofs::Shifts::shifted_128))]
pub fn multiply_by_power_128(x: u128, k: u32) -> (u128, u128)
    requires { k < 128 }
    ensures { carryless x (2 ^ k) ≡ result.1 * 2 ^ 128 + result.0 }
{
    (x << k, (x >> 1) >> (127 - k))
}

/// Two carryless products of half words, `a` by `p` and `b` by `q`, one in each lane of a vector.
///
/// Since the upper half of each lane is zero, one multiplication of half words in lanes serves both, so that the two take little more
/// time than one.
#[inline(always)]
fn multiply_32_twice(a: u32, b: u32, p: u32, q: u32) -> (u64, u64)
    ensures first { result.0 ≡ carryless a p }
    ensures second { result.1 ≡ carryless b q }
{
    let x = u64x2::from_array([a as u64, b as u64]);
    let y = u64x2::from_array([p as u64, q as u64]);
    let products = multiply_low_words(x, y).to_array();
    (products[0], products[1])
}

/// The sum of Karatsuba's rule for words.
#[inline(always)]
#[tactic(auto, using(crate::proofs::KaratsubaLemmas::joined_64))]
fn join_halves(low: u64, high: u64, both: u64) -> u128
    ensures { result ≡ karatsuba_sum 32 low high both }
{
    let middle = both ^ low ^ high;
    ((high as u128) << 64) ^ ((middle as u128) << 32) ^ (low as u128)
}
