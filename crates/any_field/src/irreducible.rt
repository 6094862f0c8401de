// Whether a polynomial is irreducible, exactly, by the test of M. O. Rabin (Probabilistic algorithms in finite fields, 1980).
ghost use Rattle.std.specs.Prelude.{◌^◌, ◌<◌, ◌≤◌, ◌↔◌, IsTrue};
ghost use Rattle.any_field.specs.Contexts.{with_top};
ghost use Rattle.any_field.specs.Irreducible.{AreCoprime, IsIrreducible};

use crate::reduction::{low_bits, ratio_of, square};

// Whether two polynomials have no common factor, by Euclid's algorithm: the one of the lower degree, shifted to that of the other, is
// added to it.
fn are_coprime(x: u128, y: u128) -> bool
    ensures { IsTrue result ↔ AreCoprime x y }
{
    let mut a = x;
    let mut b = y;
    while a != 0 && b != 0 {
        if a >= b {
            a ^= b << (b.leading_zeros() - a.leading_zeros());
        } else {
            b ^= a << (a.leading_zeros() - b.leading_zeros());
        }
    }
    (a ^ b) == 1
}

// Whether an element has no factor in common with x^width + tail. The modulus may have 129 bits, so that the first step, which takes its
// highest term away, is apart.
fn is_coprime_to_modulus(width: u32, tail: u128, a: u128) -> bool
    requires wide { 0 < width }
    requires narrow { width ≤ 128 }
    requires tail_fits { tail < 2 ^ width }
    requires a_fits { a < 2 ^ width }
    ensures { IsTrue result ↔ AreCoprime a (with_top width tail) }
{
    if a == 0 {
        return false;
    }
    let shift = width + a.leading_zeros() - 128;
    are_coprime(a, tail ^ low_bits((a << 1) << shift, width))
}

/// Whether x^degree + tail is irreducible: no two polynomials of degree 1 or more have it as their product. The degree is 1 to 128, and
/// the tail has lower terms only. By Rabin's test, with a test of common factors at each divisor of the degree in place of those by a
/// prime. It takes `degree` squarings.
pub fn is_irreducible(degree: u32, tail: u128) -> bool
    requires wide { 0 < degree }
    requires narrow { degree ≤ 128 }
    requires fits { tail < 2 ^ degree }
    ensures { IsTrue result ↔ IsIrreducible (with_top degree tail) }
{
    let ratio = ratio_of(degree, tail);
    let x = low_bits(2, degree);
    let mut moved = x;
    for i in 1..degree {
        moved = square(degree, tail, ratio, moved);
        if degree % i == 0 {
            if !is_coprime_to_modulus(degree, tail, moved ^ 2) {
                return false;
            }
        }
    }
    square(degree, tail, ratio, moved) == x
}
