// Repeated squares modulo the polynomial of GHASH. Squaring keeps sums, so that any number of squarings is a linear map: the sum
// of its columns, the images of the powers of x, at the set bits. Up to 14 squarings take less time one by one.
ghost use Rattle.std.specs.Prelude.{◌≡◌, ◌*◌, ◌%◌};
ghost use Rattle.field_base.specs.LinearMaps.{linear_image};
ghost use Rattle.field_base.specs.Powers.{repeated_square};
ghost use Rattle.field_base.specs.Remainder.{ghash_modulus, mul_mod};

mod literals;

use crate::modular::square_mod_128;
use crate::power_maps::literals::{SQUARED_28_TIMES, SQUARED_63_TIMES};

/// The polynomial squared 3 times.
pub fn square_3_times_mod_128(x: u128) -> u128
    ensures { result ≡ repeated_square 1 (mul_mod 128 ghash_modulus) 3 x }
{
    square_mod_128_times(x, 3)
}

/// The polynomial squared 7 times.
pub fn square_7_times_mod_128(x: u128) -> u128
    ensures { result ≡ repeated_square 1 (mul_mod 128 ghash_modulus) 7 x }
{
    square_mod_128_times(x, 7)
}

/// The polynomial squared 14 times.
pub fn square_14_times_mod_128(x: u128) -> u128
    ensures { result ≡ repeated_square 1 (mul_mod 128 ghash_modulus) 14 x }
{
    square_mod_128_times(x, 14)
}

/// The polynomial squared 28 times.
#[tactic(auto, using(crate::proofs::PowerMaps::times_28))]
pub fn square_28_times_mod_128(x: u128) -> u128
    ensures { result ≡ repeated_square 1 (mul_mod 128 ghash_modulus) 28 x }
{
    sum_of_columns(&SQUARED_28_TIMES, x)
}

/// The polynomial squared 63 times.
#[tactic(auto, using(crate::proofs::PowerMaps::times_63))]
pub fn square_63_times_mod_128(x: u128) -> u128
    ensures { result ≡ repeated_square 1 (mul_mod 128 ghash_modulus) 63 x }
{
    sum_of_columns(&SQUARED_63_TIMES, x)
}

// The polynomial squared `count` times, one by one.
#[inline]
fn square_mod_128_times(x: u128, count: u32) -> u128
    ensures { result ≡ repeated_square 1 (mul_mod 128 ghash_modulus) count x }
{
    let mut square = x;
    for _ in 0..count {
        square = square_mod_128(square);
    }
    square
}

// The value at `x` of the linear map with these columns. It reads every column for every `x`.
fn sum_of_columns(columns: &[u128; 128], x: u128) -> u128
    ensures { result ≡ linear_image columns.now x }
{
    let mut sum = 0;
    let mut rest = x;
    for place in 0..128 {
        sum ^= column_at(columns[place], rest);
        rest >>= 1;
    }
    sum
}

// The column where the lowest bit of `bits` is set, and else 0, without a branch.
#[inline]
#[tactic(auto, using(crate::proofs::PowerMaps::masked_column))]
fn column_at(column: u128, bits: u128) -> u128
    ensures { result ≡ bits % 2 * column }
{
    column & 0u128.wrapping_sub(bits & 1)
}
