// A root of the modulus of one field in another, by common factors with traces (E. R. Berlekamp, Factoring polynomials over large finite
// fields, Mathematics of Computation 24, 1970). A polynomial is a list of its coefficients, lowest first. Nothing is said here of what is
// found: the caller tests it.
ghost use Rattle.std.specs.Prelude.{◌<◌, ◌≤◌};

use crate::extension::BinaryExtension;
use crate::reduction::low_bits;

// Takes multiples of a polynomial of degree `low` from one of degree `high` or less, so that a degree below `low` is left.
fn take_multiples(
    field: BinaryExtension,
    polynomial: &mut [u128; 129],
    high: usize,
    divisor: &[u128; 129],
    low: usize,
)
    requires high { high < 129 }
    requires low { low < 129 }
{
    let inverse = field.invert(divisor[low]);
    for top in (low..high + 1).rev() {
        let factor = field.multiply(polynomial[top], inverse);
        for place in 0..low + 1 {
            let term = field.multiply(factor, divisor[place]);
            polynomial[top - low + place] ^= term;
        }
    }
}

// The highest place below `end` that is not 0; 0 where there is none.
fn degree_below(polynomial: &[u128; 129], end: usize) -> usize
    requires { end ≤ 129 }
    ensures { result < 129 }
{
    for place in (0..end).rev() {
        if polynomial[place] != 0 {
            return place;
        }
    }
    0
}

// Leaves the common factor of two polynomials in one of them, by Euclid's algorithm, and its degree: whether it is the first.
fn leave_common_factor(
    field: BinaryExtension,
    first: &mut [u128; 129],
    first_degree: usize,
    second: &mut [u128; 129],
    second_degree: usize,
) -> (bool, usize)
    requires first { first_degree < 129 }
    requires second { second_degree < 129 }
    ensures { result.1 < 129 }
{
    let mut high = first_degree;
    let mut low = second_degree;
    for _ in 0..65 {
        if second[low] == 0 {
            return (true, high);
        }
        take_multiples(field, first, high, second, low);
        high = degree_below(first, low);
        if first[high] == 0 {
            return (false, low);
        }
        take_multiples(field, second, low, first, high);
        low = degree_below(second, high);
    }
    (true, 0)
}

// The trace in the target of 2^bit times x, modulo the modulus of the source: the sum of 2^bit squared j times, times x squared j times.
fn trace_polynomial(source: BinaryExtension, target: BinaryExtension, bit: u32) -> [u128; 129]
    requires { bit < 128 }
{
    let mut trace = [0; 129];
    let mut conjugate: u128 = 1 << bit;
    let mut moved = low_bits(2, source.degree);
    for _ in 0..target.degree {
        for place in 0..128 {
            if (moved >> place) % 2 == 1 {
                trace[place] ^= conjugate;
            }
        }
        conjugate = target.square(conjugate);
        moved = source.square(moved);
    }
    trace
}

// Leaves those roots of a polynomial at which the trace is 0, where it is 0 at some and not at all. Returns the degree that is left.
fn split(
    source: BinaryExtension,
    target: BinaryExtension,
    polynomial: &mut [u128; 129],
    degree: usize,
    bit: u32,
) -> usize
    requires degree { degree < 129 }
    requires bit { bit < 128 }
    ensures { result < 129 }
{
    let mut first = *polynomial;
    let mut second = trace_polynomial(source, target, bit);
    let low = degree_below(&second, 128);
    let (is_first, left) = leave_common_factor(target, &mut first, degree, &mut second, low);
    if left == 0 || left >= degree {
        return degree;
    }
    for place in 0..129 {
        polynomial[place] = if is_first {
            first[place]
        } else {
            second[place]
        };
    }
    left
}

/// What is likely to be a root of the modulus of `source` in `target`: two roots differ in the trace of their products by some bit, so that
/// one root is left.
pub(crate) fn likely_root(source: BinaryExtension, target: BinaryExtension) -> u128 {
    let mut polynomial = [0; 129];
    for place in 0..128 {
        polynomial[place] = (source.tail >> place) % 2;
    }
    let mut degree = source.degree as usize;
    polynomial[degree] = 1;
    for bit in 0..target.degree {
        if degree > 1 {
            degree = split(source, target, &mut polynomial, degree, bit);
        }
    }
    target.multiply(polynomial[0], target.invert(polynomial[1]))
}
