// Searches for polynomials of a kind, which is one by a test. Their contracts say that what is found is irreducible, and of the kind where
// the test is sound, and that nothing of the kind is passed over.
ghost use Rattle.std.specs.Prelude.{◌≡◌, ℕ, ◌%◌, ◌^◌, ◌<◌, ◌≤◌, IfNone, IfSome, IsTrue, bit_xor, length, slice_index, ⊤};
ghost use Rattle.any_field.specs.Contexts.{IsFieldModulus};
ghost use Rattle.any_field.specs.Orders.{IsPrimitiveModulus, TableIsPrime};

use crate::reduction::{low_bits, power_of_x};
use crate::search::{is_field_modulus, is_primitive_modulus};

/// A kind of polynomials.
pub(crate) trait Kind {
    // x^degree + tail is of the kind, and what the test rests on.
    ghost is_one: { ℕ → ℕ → Type 0 };

    ghost premise: { Type 0 };

    /// Whether x^degree + tail is of the kind. What is taken for one is irreducible in any case.
    fn test(degree: u32, tail: u128) -> bool
        ensures complete { is_one degree tail → IsTrue result }
        ensures field { IsTrue result → IsFieldModulus degree tail }
        ensures sound { premise → IsTrue result → is_one degree tail };

    ghost field_law: { (degree tail : ℕ) → is_one degree tail → IsFieldModulus degree tail };
}

/// Irreducible polynomials of degree 1 to 128.
pub(crate) struct Irreducible;

impl Kind for Irreducible {
    ghost is_one = { IsFieldModulus };

    ghost premise = { ⊤ };

    fn test(degree: u32, tail: u128) -> bool {
        is_field_modulus(degree, tail)
    }

    ghost field_law = { λ degree tail is. is };
}

/// Primitive polynomials of degree 1 to 128.
pub(crate) struct Primitive;

impl Kind for Primitive {
    ghost is_one = { IsPrimitiveModulus };

    ghost premise = { TableIsPrime };

    fn test(degree: u32, tail: u128) -> bool {
        is_primitive_modulus(degree, tail)
    }

    ghost field_law = { λ degree tail is. is.0 };
}

/// The least tail from `tail` on of a polynomial of the kind. `None` exactly where there is none.
pub(crate) fn next<K: Kind>(degree: u32, tail: u128) -> Option<u128>
    ensures found { IfSome result (λ t. (tail ≤ t) × IsFieldModulus degree t × (K.premise → K.is_one degree t)) }
    ensures least { IfSome result (λ t. (u : ℕ) → u < t → tail ≤ u → K.is_one degree u → ⊥) }
    ensures none { IfNone result ((u : ℕ) → tail ≤ u → K.is_one degree u → ⊥) }
{
    if degree == 0 || degree > 128 {
        return None;
    }
    let last = low_bits(u128::MAX, degree);
    let mut candidate = tail;
    while candidate < last {
        if K::test(degree, candidate) {
            return Some(candidate);
        }
        candidate += 1;
    }
    if K::test(degree, candidate) {
        return Some(candidate);
    }
    None
}

/// The low `degree` bits of the first draw that are the tail of one. `None` exactly where no draw has such bits.
pub(crate) fn drawn<K: Kind>(degree: u32, draws: &[u128]) -> Option<u128>
    ensures found { IfSome result (λ t. (i : ℕ) × (i < length draws.now) × (t ≡ slice_index draws.now i % 2 ^ degree)
        × IsFieldModulus degree t × (K.premise → K.is_one degree t)
        × ((j : ℕ) → j < i → K.is_one degree (slice_index draws.now j % 2 ^ degree) → ⊥)) }
    ensures none { IfNone result ((j : ℕ) → j < length draws.now → K.is_one degree (slice_index draws.now j % 2 ^ degree) → ⊥) }
{
    if degree == 0 || degree > 128 {
        return None;
    }
    for place in 0..draws.len() {
        let tail = low_bits(draws[place], degree);
        if K::test(degree, tail) {
            return Some(tail);
        }
    }
    None
}

// The least c from 1 to below `end` with which x^degree + terms + x^c + 1 is one.
fn three_terms_of<K: Kind>(degree: u32, terms: u128, end: u32) -> Option<u32>
    requires { end ≤ 128 }
    ensures found { IfSome result (λ c. (0 < c) × (c < end) × IsFieldModulus degree (bit_xor (bit_xor terms (2 ^ c)) 1)
        × (K.premise → K.is_one degree (bit_xor (bit_xor terms (2 ^ c)) 1))) }
    ensures least { IfSome result (λ c. (k : ℕ) → 0 < k → k < c → K.is_one degree (bit_xor (bit_xor terms (2 ^ k)) 1) → ⊥) }
    ensures none { IfNone result ((k : ℕ) → 0 < k → k < end → K.is_one degree (bit_xor (bit_xor terms (2 ^ k)) 1) → ⊥) }
{
    for c in 1..end {
        if K::test(degree, terms ^ power_of_x(c) ^ 1) {
            return Some(c);
        }
    }
    None
}

// The least b, and then the least c, with c < b < end and c at least 1, with which x^degree + x^end + x^b + x^c + 1 is one.
fn five_terms_of<K: Kind>(degree: u32, end: u32) -> Option<(u32, u32)>
    requires { end < 128 }
    ensures found { IfSome result (λ low. (0 < low.1) × (low.1 < low.0) × (low.0 < end)
        × IsFieldModulus degree (bit_xor (bit_xor (bit_xor (2 ^ end) (2 ^ low.0)) (2 ^ low.1)) 1)
        × (K.premise → K.is_one degree (bit_xor (bit_xor (bit_xor (2 ^ end) (2 ^ low.0)) (2 ^ low.1)) 1))) }
    ensures least_c { IfSome result (λ low. (k : ℕ) → 0 < k → k < low.1
        → K.is_one degree (bit_xor (bit_xor (bit_xor (2 ^ end) (2 ^ low.0)) (2 ^ k)) 1) → ⊥) }
    ensures least_b { IfSome result (λ low. (j k : ℕ) → 0 < k → k < j → j < low.0
        → K.is_one degree (bit_xor (bit_xor (bit_xor (2 ^ end) (2 ^ j)) (2 ^ k)) 1) → ⊥) }
    ensures none { IfNone result ((j k : ℕ) → 0 < k → k < j → j < end
        → K.is_one degree (bit_xor (bit_xor (bit_xor (2 ^ end) (2 ^ j)) (2 ^ k)) 1) → ⊥) }
{
    for b in 1..end {
        match three_terms_of::<K>(degree, power_of_x(end) ^ power_of_x(b), b) {
            Some(c) => return Some((b, c)),
            None => {}
        }
    }
    None
}

/// The least exponent with which x^degree + x^k + 1 is one. `None` exactly where none is.
pub(crate) fn three_terms<K: Kind>(degree: u32) -> Option<u32>
    ensures found { IfSome result (λ k. (0 < k) × (k < degree) × IsFieldModulus degree (bit_xor (2 ^ k) 1)
        × (K.premise → K.is_one degree (bit_xor (2 ^ k) 1))) }
    ensures least { IfSome result (λ k. (j : ℕ) → 0 < j → j < k → K.is_one degree (bit_xor (2 ^ j) 1) → ⊥) }
    ensures none { IfNone result ((j : ℕ) → 0 < j → j < degree → K.is_one degree (bit_xor (2 ^ j) 1) → ⊥) }
{
    if degree > 128 {
        return None;
    }
    three_terms_of::<K>(degree, 0, degree)
}

/// The exponents a > b > c > 0 with which x^degree + x^a + x^b + x^c + 1 is one, of which a is the least, then b and then c. `None` exactly
/// where none is.
pub(crate) fn five_terms<K: Kind>(degree: u32) -> Option<(u32, u32, u32)>
    ensures found { IfSome result (λ found. (0 < found.2) × (found.2 < found.1) × (found.1 < found.0) × (found.0 < degree)
        × IsFieldModulus degree (bit_xor (bit_xor (bit_xor (2 ^ found.0) (2 ^ found.1)) (2 ^ found.2)) 1)
        × (K.premise → K.is_one degree (bit_xor (bit_xor (bit_xor (2 ^ found.0) (2 ^ found.1)) (2 ^ found.2)) 1))) }
    ensures least_c { IfSome result (λ found. (k : ℕ) → 0 < k → k < found.2
        → K.is_one degree (bit_xor (bit_xor (bit_xor (2 ^ found.0) (2 ^ found.1)) (2 ^ k)) 1) → ⊥) }
    ensures least_b { IfSome result (λ found. (j k : ℕ) → 0 < k → k < j → j < found.1
        → K.is_one degree (bit_xor (bit_xor (bit_xor (2 ^ found.0) (2 ^ j)) (2 ^ k)) 1) → ⊥) }
    ensures least_a { IfSome result (λ found. (i j k : ℕ) → 0 < k → k < j → j < i → i < found.0
        → K.is_one degree (bit_xor (bit_xor (bit_xor (2 ^ i) (2 ^ j)) (2 ^ k)) 1) → ⊥) }
    ensures none { IfNone result ((i j k : ℕ) → 0 < k → k < j → j < i → i < degree
        → K.is_one degree (bit_xor (bit_xor (bit_xor (2 ^ i) (2 ^ j)) (2 ^ k)) 1) → ⊥) }
{
    if degree > 128 {
        return None;
    }
    for a in 1..degree {
        match five_terms_of::<K>(degree, a) {
            Some(low) => return Some((a, low.0, low.1)),
            None => {}
        }
    }
    None
}
