// Products and squares modulo the polynomials of two fields.
ghost use Rattle.std.specs.Prelude.{◌≡◌};
ghost use Rattle.field_base.specs.Remainder.{ghash_modulus, mul_mod, poly64_modulus};

use crate::fold::{reduce_64, reduce_128};
use crate::product::{multiply_64, multiply_128};
use crate::split::split_128;
use crate::square::{carryless_square_64, carryless_square_128};

/// The product modulo x^64 + x^4 + x^3 + x + 1.
pub fn multiply_mod_64(x: u64, y: u64) -> u64
    ensures { result ≡ mul_mod 64 poly64_modulus x y }
{
    let (low, high) = split_128(multiply_64(x, y));
    reduce_64(low, high)
}

/// The square modulo x^64 + x^4 + x^3 + x + 1.
pub fn square_mod_64(x: u64) -> u64
    ensures { result ≡ mul_mod 64 poly64_modulus x x }
{
    let (low, high) = split_128(carryless_square_64(x));
    reduce_64(low, high)
}

/// The product modulo x^128 + x^7 + x^2 + x + 1.
pub fn multiply_mod_128(x: u128, y: u128) -> u128
    ensures { result ≡ mul_mod 128 ghash_modulus x y }
{
    let (low, high) = multiply_128(x, y);
    reduce_128(low, high)
}

/// The square modulo x^128 + x^7 + x^2 + x + 1.
pub fn square_mod_128(x: u128) -> u128
    ensures { result ≡ mul_mod 128 ghash_modulus x x }
{
    let (low, high) = carryless_square_128(x);
    reduce_128(low, high)
}
