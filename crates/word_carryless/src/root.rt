// Square roots modulo the polynomials of two fields.
//
// A polynomial is an even part and an odd one, e² + x o², where e and o have the bits at its even and at its odd places,
// since a square spreads bits. So its root is e + √x o.
ghost use Rattle.std.specs.Prelude.{◌≡◌, ◌<◌, bit_and};
ghost use Rattle.field_base.specs.Carryless.{carryless};
ghost use Rattle.field_base.specs.Remainder.{ghash_modulus, mul_mod, poly64_modulus};
ghost use Rattle.word_carryless.specs.Compact.{compact_step, even_places, ones, root_of_x_64, root_of_x_128};

use crate::fold::{reduce_64, reduce_128};
use crate::product::multiply_64_twice;
use crate::split::split_128;

/// The bits at the even places of a word, moved together: the carryless square root of those bits.
///
/// ```text
/// . a . b . c . d . e . f . g . h  ->  . . a b . . c d . . e f . . g h  ->  . . . . a b c d . . . . e f g h  ->  ..
/// ```
pub fn compact_64(x: u64) -> u32
    ensures { carryless result result ≡ bit_and x (even_places 64) }
{
    let bits = x & 0x5555_5555_5555_5555;
    let pairs = join_fields(bits, 1, 0x3333_3333_3333_3333);
    let nibbles = join_fields(pairs, 2, 0x0f0f_0f0f_0f0f_0f0f);
    let bytes = join_fields(nibbles, 4, 0x00ff_00ff_00ff_00ff);
    let halves = join_fields(bytes, 8, 0x0000_ffff_0000_ffff);
    ((halves ^ (halves >> 16)) & 0xffff_ffff) as u32
}

/// The bits at the even places of a double word, moved together: the carryless square root of those bits.
pub fn compact_128(x: u128) -> u64
    ensures { carryless result result ≡ bit_and x (even_places 128) }
{
    let (low, high) = split_128(x);
    ((compact_64(high) as u64) << 32) ^ (compact_64(low) as u64)
}

/// The square root modulo x^64 + x^4 + x^3 + x + 1. Every polynomial has exactly one.
pub fn sqrt_mod_64(x: u64) -> u64
    ensures { mul_mod 64 poly64_modulus result result ≡ x }
{
    let even = compact_64(x);
    let odd = compact_64(x >> 1);
    (even as u64) ^ times_root_of_x_64(odd)
}

/// The square root modulo x^128 + x^7 + x^2 + x + 1. Every polynomial has exactly one.
pub fn sqrt_mod_128(x: u128) -> u128
    ensures { mul_mod 128 ghash_modulus result result ≡ x }
{
    let even = compact_128(x);
    let odd = compact_128(x >> 1);
    (even as u128) ^ times_root_of_x_128(odd)
}

/// Moves the halves of each field of a word together by `shift`; `mask` has the places where they end up.
fn join_fields(x: u64, shift: u32, mask: u64) -> u64
    requires { shift < 64 }
    ensures { result ≡ compact_step shift mask x }
{
    (x ^ (x >> shift)) & mask
}

/// The product of a half word by the root of x modulo x^64 + x^4 + x^3 + x + 1, which is a run of ones and two terms:
/// x^63 + .. + x^33 + x^32 + x^3 + x.
fn times_root_of_x_64(odd: u32) -> u64
    ensures { result ≡ mul_mod 64 poly64_modulus root_of_x_64 odd }
{
    let by_ones = times_ones_32(odd);
    let word = odd as u64;
    reduce_64((by_ones << 32) ^ (word << 3) ^ (word << 1), by_ones >> 32)
}

/// The product of a half word by x^31 + .. + x + 1, which is the product of the x^k + 1 for k = 1, 2, 4, 8 and 16.
fn times_ones_32(half: u32) -> u64
    ensures { result ≡ carryless (ones 32) half }
{
    let word = half as u64;
    let by_2_ones = word ^ (word << 1);
    let by_4_ones = by_2_ones ^ (by_2_ones << 2);
    let by_8_ones = by_4_ones ^ (by_4_ones << 4);
    let by_16_ones = by_8_ones ^ (by_8_ones << 8);
    by_16_ones ^ (by_16_ones << 16)
}

/// The product of a word by the root of x modulo x^128 + x^7 + x^2 + x + 1, from the products by the halves of the root.
fn times_root_of_x_128(odd: u64) -> u128
    ensures { result ≡ mul_mod 128 ghash_modulus root_of_x_128 odd }
{
    let (low, high) = multiply_64_twice(0x6db6_db6d_b6db_6da4, 0x2492_4924_9249_2492, odd, odd);
    reduce_128(low ^ (high << 64), high >> 64)
}
