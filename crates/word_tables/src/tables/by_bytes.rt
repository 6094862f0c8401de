// Written by scripts/make_impls.py; do not edit.
// Squares and square roots of elements of 16 to 64 bits, as sums of table entries of their bytes.
ghost use Rattle.std.specs.Prelude.{◌≡◌};
ghost use Rattle.field_base.specs.Tower.{tower_mul};

use crate::tables::linear::{ROOTS_16, ROOTS_32, ROOTS_64, SQUARES_16, SQUARES_32, SQUARES_64};
use field_base::byte_tables::{sum_of_entries_16, sum_of_entries_32, sum_of_entries_64};

/// The square of an element of GF(2^16), level 4 of the tower.
#[inline]
pub fn square_16(x: u16) -> u16
    ensures { result ≡ tower_mul 4 x x }
{
    sum_of_entries_16(&SQUARES_16, x)
}

/// The square root of an element of GF(2^16). Every element has one.
#[inline]
pub fn sqrt_16(x: u16) -> u16
    ensures { tower_mul 4 result result ≡ x }
{
    sum_of_entries_16(&ROOTS_16, x)
}

/// The square of an element of GF(2^32), level 5 of the tower.
#[inline]
pub fn square_32(x: u32) -> u32
    ensures { result ≡ tower_mul 5 x x }
{
    sum_of_entries_32(&SQUARES_32, x)
}

/// The square root of an element of GF(2^32). Every element has one.
#[inline]
pub fn sqrt_32(x: u32) -> u32
    ensures { tower_mul 5 result result ≡ x }
{
    sum_of_entries_32(&ROOTS_32, x)
}

/// The square of an element of GF(2^64), level 6 of the tower.
#[inline]
pub fn square_64(x: u64) -> u64
    ensures { result ≡ tower_mul 6 x x }
{
    sum_of_entries_64(&SQUARES_64, x)
}

/// The square root of an element of GF(2^64). Every element has one.
#[inline]
pub fn sqrt_64(x: u64) -> u64
    ensures { tower_mul 6 result result ≡ x }
{
    sum_of_entries_64(&ROOTS_64, x)
}
