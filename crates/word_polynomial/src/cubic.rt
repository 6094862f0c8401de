// The arithmetic of the cubic extension on three words: a product by six products of words, and the inverse by the adjugate,
// whose product with the element is its norm, an element of GF(2^64).
ghost use Rattle.std.specs.Prelude.{◌≡◌, ◌≢◌, ◌<◌, ◌^◌};
ghost use Rattle.word_polynomial.specs.Cubic.{cubic_mul};
ghost use Rattle.field_base.specs.Powers.{repeated_square};
ghost use Rattle.field_base.specs.Remainder.{mul_mod, poly64_modulus};
ghost use Rattle.word_polynomial.specs.Triple.{triple_number};

use crate::triple::Triple;
use word_carryless::{multiply_mod_64, sqrt_mod_64, square_mod_64};
use word_tables::{to_polynomial_64, to_tower_64};
use word_tower::{Bits64, Level};

/// The product, by Karatsuba's rule: six products of coefficients in place of nine.
#[inline]
pub fn multiply_192(x: Triple, y: Triple) -> Triple
    ensures { triple_number result ≡ cubic_mul (triple_number x) (triple_number y) }
{
    let p0 = multiply_mod_64(x.c0, y.c0);
    let p1 = multiply_mod_64(x.c1, y.c1);
    let p2 = multiply_mod_64(x.c2, y.c2);
    let p01 = multiply_mod_64(x.c0 ^ x.c1, y.c0 ^ y.c1);
    let p02 = multiply_mod_64(x.c0 ^ x.c2, y.c0 ^ y.c2);
    let p12 = multiply_mod_64(x.c1 ^ x.c2, y.c1 ^ y.c2);
    let spill = p12 ^ p1 ^ p2;
    Triple {
        c0: p0 ^ spill,
        c1: p01 ^ p0 ^ p1 ^ spill ^ p2,
        c2: p02 ^ p0 ^ p1,
    }
}

/// The square: (c0 + c1 y + c2 y²)² = c0² + c2² y + (c1² + c2²) y², since y⁴ = y² + y.
#[inline(always)]
pub fn square_192(x: Triple) -> Triple
    ensures { triple_number result ≡ cubic_mul (triple_number x) (triple_number x) }
{
    let s0 = square_mod_64(x.c0);
    let s1 = square_mod_64(x.c1);
    let s2 = square_mod_64(x.c2);
    Triple {
        c0: s0,
        c1: s2,
        c2: s1 ^ s2,
    }
}

/// An element and a number of squarings below 192 that take it to `x` squared `count` times. The automorphism replaces 64 of
/// them.
#[inline]
pub fn reduce_squarings_192(x: Triple, count: usize) -> (Triple, usize)
    ensures few { result.1 < 192 }
    ensures squarings { repeated_square 1 cubic_mul result.1 (triple_number result.0) ≡ repeated_square 1 cubic_mul count (triple_number x) }
{
    let rest = count % 192;
    if rest < 64 {
        (x, rest)
    } else if rest < 128 {
        (automorphism_192(x), rest - 64)
    } else {
        (automorphism_192(automorphism_192(x)), rest - 128)
    }
}

/// The square root. Every element has exactly one.
#[inline(always)]
pub fn sqrt_192(x: Triple) -> Triple
    ensures { cubic_mul (triple_number result) (triple_number result) ≡ triple_number x }
{
    let r0 = sqrt_mod_64(x.c0);
    let r1 = sqrt_mod_64(x.c1 ^ x.c2);
    let r2 = sqrt_mod_64(x.c1);
    Triple {
        c0: r0,
        c1: r1,
        c2: r2,
    }
}

/// The inverse, and 0 for 0: the adjugate times the inverse of the norm.
#[inline]
pub fn invert_192(x: Triple) -> Triple
    ensures zero { triple_number x ≡ 0 → triple_number result ≡ 0 }
    ensures inverse { triple_number x ≢ 0 → cubic_mul (triple_number x) (triple_number result) ≡ 1 }
{
    let s0 = square_mod_64(x.c0);
    let s1 = square_mod_64(x.c1);
    let s2 = square_mod_64(x.c2);
    let p01 = multiply_mod_64(x.c0, x.c1);
    let p02 = multiply_mod_64(x.c0, x.c2);
    let p12 = multiply_mod_64(x.c1, x.c2);
    let d0 = s0 ^ s1 ^ (s2 ^ p12);
    let d1 = p01 ^ s2;
    let d2 = s1 ^ s2 ^ p02;
    let n0 = multiply_mod_64(x.c0, d0);
    let n1 = multiply_mod_64(x.c1, d2);
    let n2 = multiply_mod_64(x.c2, d1);
    let scale = invert_by_tower(n0 ^ n1 ^ n2);
    let c0 = multiply_mod_64(scale, d0);
    let c1 = multiply_mod_64(scale, d1);
    let c2 = multiply_mod_64(scale, d2);
    Triple { c0, c1, c2 }
}

/// The inverse in GF(2^64), and 0 for 0, by the tower's tables. They take about a seventh of the time of the 63 squarings that
/// invert a `Poly64`.
#[inline]
fn invert_by_tower(x: u64) -> u64
    ensures zero { x ≡ 0 → result ≡ 0 }
    ensures inverse { x ≢ 0 → mul_mod 64 poly64_modulus x result ≡ 1 }
{
    to_polynomial_64(Bits64::invert(to_tower_64(x)))
}

/// The element squared 64 times: the automorphism over GF(2^64) that takes y to y², and so y² to y⁴ = y² + y.
#[inline]
pub fn automorphism_192(x: Triple) -> Triple
    ensures { triple_number result ≡ repeated_square 1 cubic_mul 64 (triple_number x) }
{
    Triple {
        c0: x.c0,
        c1: x.c2,
        c2: x.c1 ^ x.c2,
    }
}
