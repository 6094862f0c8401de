// Repeated squares by tables: the value of a linear map at a word is the sum of the table's entries at the word's digits to
// base 16.
ghost use Rattle.std.specs.Prelude.{◌≡◌, ◌<◌, ◌≤◌, ◌*◌, ◌^◌, ℕ};
ghost use Rattle.field_base.specs.Powers.{repeated_square};
ghost use Rattle.field_base.specs.Tower.{tower_mul};
ghost use Rattle.word_tables.specs.LinearMap.{sum_of_values};

mod literals;

use crate::frobenius::literals::{
    SQUARED_1, SQUARED_2, SQUARED_4, SQUARED_8, SQUARED_16, SQUARED_32,
};
use crate::sum_of_values;

/// The element `x` of a level of the tower squared `count` times, by one table for each set bit of `count`. The level is
/// one from 2, of 4 bits, to 7, of 128 bits; `x` is one of its elements, and `count` is below 64. It is inlined, so that for a
/// constant level no loop is left, and no more digits are looked up than its elements have.
#[inline(always)]
pub fn repeated_square(level: usize, x: u128, count: usize) -> u128
    requires nibbles { 2 ≤ level }
    requires few { level ≤ 7 }
    requires fits { x < 2 ^ 2 ^ level }
    requires count { count < 64 }
    ensures { result ≡ repeated_square 1 (tower_mul level) count x }
{
    let mut value = x;
    for step in 0..6 {
        if (count >> step) % 2 == 1 {
            value = square_by_table(level, value, step);
        }
    }
    value
}

// The element `x` of a level of at least 4 bits, squared 2^step times.
#[inline(always)]
fn square_by_table(level: usize, x: u128, step: usize) -> u128
    requires nibbles { 2 ≤ level }
    requires few { level ≤ 7 }
    requires fits { x < 2 ^ 2 ^ level }
    requires step { step < 6 }
    ensures { result ≡ repeated_square 1 (tower_mul level) (2 ^ step) x }
{
    sum_of_values(table_of(step), x, digits_of(level))
}

// The table of 2^step squarings, at every level: the entries at the digits of an element add up to the element squared 2^step times.
#[inline(always)]
#[tactic(auto, using(crate::proofs::RepeatedSquares::squared))]
fn table_of(step: usize) -> &'static [u128; 512]
    requires { step < 6 }
    ensures { (k digits x : ℕ) → k ≤ 7 → 2 ^ k ≡ 4 * digits → x < 2 ^ 2 ^ k
        → sum_of_values digits result.now x ≡ repeated_square 1 (tower_mul k) (2 ^ step) x }
{
    match step {
        0 => &SQUARED_1,
        1 => &SQUARED_2,
        2 => &SQUARED_4,
        3 => &SQUARED_8,
        4 => &SQUARED_16,
        _ => &SQUARED_32,
    }
}

// The number of digits to base 16 of an element of a level.
#[inline(always)]
fn digits_of(level: usize) -> usize
    requires nibbles { 2 ≤ level }
    requires few { level ≤ 7 }
    ensures { 2 ^ level ≡ 4 * result }
{
    1 << (level - 2)
}
