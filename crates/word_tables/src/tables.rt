// GF(2^8), level 3 of the tower, by tables: a product is 0x13 to the power of the sum of the logarithms of its operands. Squares and
// square roots of elements of 16 to 64 bits are additive, so the value at a number is the sum of a table entry for each of its
// bytes. At 128 bits such tables would take 64 KB each and gain nothing.
ghost use Rattle.std.specs.Prelude.{◌≡◌, ◌≢◌, ◌<◌, slice_index};
ghost use Rattle.field_base.specs.Tower.{root, tower_mul};
ghost use Rattle.word_tables.specs.Tables.{EntriesArePowers, EntriesAreLogarithms, ZeroHasLogarithmZero};
ghost use Rattle.word_tables.specs.declared.tables.literals.TheConstants.{EXP, INVERSES, LOG, ROOTS, ROOT_PRODUCTS, SQUARES};

mod by_bytes;
mod linear;
mod literals;

pub use crate::tables::by_bytes::{sqrt_16, sqrt_32, sqrt_64, square_16, square_32, square_64};
use field_base::byte_tables::entry;

/// The product of two elements of GF(2^8): 0x13 to the power of the sum of their logarithms, and 0 where an operand is 0,
/// which has no logarithm.
#[inline]
pub fn multiply_8(a: u8, b: u8) -> u8
    ensures { result ≡ tower_mul 3 a b }
{
    let product = power_entry(
        entry(&literals::LOG, a) as usize + entry(&literals::LOG, b) as usize,
    );
    if a == 0 || b == 0 { 0 } else { product }
}

/// The quotient of an element of GF(2^8) by a nonzero divisor: 0x13 to the power of the difference of their logarithms, to
/// which the order 255 of 0x13 is added. It is 0 where `a` is 0, which has no logarithm, whatever the divisor is.
#[inline]
pub fn divide_8(a: u8, divisor: u8) -> u8
    ensures zero { a ≡ 0 → result ≡ 0 }
    ensures quotient { divisor ≢ 0 → tower_mul 3 divisor result ≡ a }
{
    let quotient = power_entry(
        entry(&literals::LOG, a) as usize + (255 - entry(&literals::LOG, divisor) as usize),
    );
    if a == 0 { 0 } else { quotient }
}

/// The square of an element of GF(2^8).
#[inline]
pub fn square_8(a: u8) -> u8
    ensures { result ≡ tower_mul 3 a a }
{
    entry(&literals::SQUARES, a)
}

/// The inverse of an element of GF(2^8), and 0 for 0.
#[inline]
pub fn invert_8(a: u8) -> u8
    ensures zero { a ≡ 0 → result ≡ 0 }
    ensures inverse { a ≢ 0 → tower_mul 3 a result ≡ 1 }
{
    entry(&literals::INVERSES, a)
}

/// The square root of an element of GF(2^8). Every element has one.
#[inline]
pub fn sqrt_8(a: u8) -> u8
    ensures { tower_mul 3 result result ≡ a }
{
    entry(&literals::ROOTS, a)
}

/// The product of an element of GF(2^8) by the root that level 3 adjoins.
#[inline]
pub fn multiply_by_root_8(a: u8) -> u8
    ensures { result ≡ tower_mul 3 (root 3) a }
{
    entry(&literals::ROOT_PRODUCTS, a)
}

/// States that entry e of EXP is 0x13 to the power e, and that for every nonzero x entry x of LOG is below 255 and 0x13 to its
/// power is x. The entry of LOG at 0 is 0.
pub fn tables_are_powers()
    ensures powers { EntriesArePowers }
    ensures logarithms { EntriesAreLogarithms }
    ensures zero { ZeroHasLogarithmZero }
{}

// The entry of EXP at `exponent`.
#[inline]
pub(crate) fn power_entry(exponent: usize) -> u8
    requires { exponent < 511 }
    ensures { result ≡ slice_index EXP exponent }
{
    literals::EXP[exponent]
}
