// Inverses modulo the polynomials of two fields, as the power x^(2^w - 2) (Fermat) by chains of Itoh and Tsujii (A fast algorithm
// for computing multiplicative inverses in GF(2^m) using normal bases, 1988).
//
// A run of k ones is the power x^(2^k - 1), whose exponent has k ones. Squared n times and multiplied by the run of n ones, the
// run of m ones is that of m + n, and a square of the run of w - 1 ones is the inverse. The steps of a chain, and the
// places that it reads, do not depend on the operand.
ghost use Rattle.std.specs.Prelude.{◌≡◌, ◌-◌, ◌^◌};
ghost use Rattle.field_base.specs.Powers.{power, repeated_square};
ghost use Rattle.field_base.specs.Remainder.{ghash_modulus, mul_mod, poly64_modulus};

use crate::modular::{multiply_mod_64, multiply_mod_128, square_mod_64, square_mod_128};
use crate::power_maps::{
    square_3_times_mod_128, square_7_times_mod_128, square_14_times_mod_128,
    square_28_times_mod_128, square_63_times_mod_128,
};

/// The power x^(2^64 - 2) modulo x^64 + x^4 + x^3 + x + 1, which is the inverse of a nonzero x, and 0 for 0. It takes 9
/// products and 63 squares, and reads no table.
pub fn invert_mod_64(x: u64) -> u64
    ensures { result ≡ power 1 (mul_mod 64 poly64_modulus) x (2 ^ 64 - 2) }
{
    let run_2 = join_runs_64(x, 1, x);
    let run_3 = join_runs_64(run_2, 1, x);
    let run_6 = join_runs_64(run_3, 3, run_3);
    let run_12 = join_runs_64(run_6, 6, run_6);
    let run_24 = join_runs_64(run_12, 12, run_12);
    let run_48 = join_runs_64(run_24, 24, run_24);
    let run_60 = join_runs_64(run_48, 12, run_12);
    let run_63 = join_runs_64(run_60, 3, run_3);
    square_mod_64(run_63)
}

/// The power x^(2^128 - 2) modulo x^128 + x^7 + x^2 + x + 1, which is the inverse of a nonzero x, and 0 for 0. It takes
/// 10 products, 36 squares and 2 power maps. Each power map reads all of its 128 columns.
pub fn invert_mod_128(x: u128) -> u128
    ensures { result ≡ power 1 (mul_mod 128 ghash_modulus) x (2 ^ 128 - 2) }
{
    let run_2 = multiply_mod_128(square_mod_128(x), x);
    let run_3 = multiply_mod_128(square_mod_128(run_2), x);
    let run_6 = multiply_mod_128(square_3_times_mod_128(run_3), run_3);
    let run_7 = multiply_mod_128(square_mod_128(run_6), x);
    let run_14 = multiply_mod_128(square_7_times_mod_128(run_7), run_7);
    let run_28 = multiply_mod_128(square_14_times_mod_128(run_14), run_14);
    let run_56 = multiply_mod_128(square_28_times_mod_128(run_28), run_28);
    let run_63 = multiply_mod_128(square_7_times_mod_128(run_56), run_7);
    let run_126 = multiply_mod_128(square_63_times_mod_128(run_63), run_63);
    let run_127 = multiply_mod_128(square_mod_128(run_126), x);
    square_mod_128(run_127)
}

// The product of `more` and `ones` squared `count` times.
#[inline]
fn join_runs_64(ones: u64, count: u32, more: u64) -> u64
    ensures { result ≡ mul_mod 64 poly64_modulus (repeated_square 1 (mul_mod 64 poly64_modulus) count ones) more }
{
    let mut moved = ones;
    for _ in 0..count {
        moved = square_mod_64(moved);
    }
    multiply_mod_64(moved, more)
}
