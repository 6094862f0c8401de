// Polynomials modulo x^8 + x^4 + x^3 + x + 1 (FIPS 197, section 4.2) by tables: a product is 0x88, the field's generator, to the
// power of the sum of the logarithms of its operands. Bit i of a byte is the coefficient of x^i.
ghost use Rattle.std.specs.Prelude.{◌≡◌, ◌≢◌};
ghost use Rattle.field_base.specs.Remainder.{aes_modulus, mul_mod};

mod literals;

use field_base::byte_tables::entry;
use field_base::log_tables::power_of_sum;

/// The product of two bytes: 0x88 to the power of the sum of their logarithms. That of 0 is so large that EXP has 0 at each sum
/// with it, so that no operand is compared with 0.
#[inline]
pub fn multiply(a: u8, b: u8) -> u8
    ensures { result ≡ mul_mod 8 aes_modulus a b }
{
    power_of_sum(&literals::EXP, &literals::LOG, a, b)
}

/// The square of a byte.
#[inline]
pub fn square(a: u8) -> u8
    ensures { result ≡ mul_mod 8 aes_modulus a a }
{
    entry(&literals::SQUARES, a)
}

/// The inverse of a byte, and 0 for 0.
#[inline]
pub fn invert(a: u8) -> u8
    ensures zero { a ≡ 0 → result ≡ 0 }
    ensures inverse { a ≢ 0 → mul_mod 8 aes_modulus a result ≡ 1 }
{
    entry(&literals::INVERSES, a)
}

/// The square root of a byte. Every byte has one.
#[inline]
pub fn sqrt(a: u8) -> u8
    ensures { mul_mod 8 aes_modulus result result ≡ a }
{
    entry(&literals::ROOTS, a)
}
