// Irreducible and primitive polynomials of a degree: the least from a tail on, the least of three and of five terms, and the first of drawn
// ones. A tail has the terms of a polynomial but for its highest.
ghost use Rattle.std.specs.Prelude.{◌≡◌, ◌↔◌, ℕ, ◌%◌, ◌^◌, ◌<◌, ◌≤◌, IfNone, IfSome, IsTrue, bit_xor, length, slice_index};
ghost use Rattle.any_field.specs.Contexts.{IsFieldModulus};
ghost use Rattle.any_field.specs.Orders.{IsPrimitiveModulus, TableIsPrime};

mod kinds;

use crate::extension::BinaryExtension;
use crate::reduction::times_x;
use crate::search::kinds::{Irreducible, Primitive, drawn, five_terms, next, three_terms};

/// Whether a field has the modulus x^degree + tail: the degree is 1 to 128, the tail has lower terms only, and the polynomial is
/// irreducible.
pub fn is_field_modulus(degree: u32, tail: u128) -> bool
    ensures { IsTrue result ↔ IsFieldModulus degree tail }
{
    match BinaryExtension::new(degree, tail) {
        Ok(_) => true,
        Err(_) => false,
    }
}

/// Whether x^degree + tail is primitive, of degree 1 to 128: the modulus of a field whose elements but 0 are all powers of x. One that is
/// primitive is never refused, and none that is reducible is accepted; that others are refused rests on the primality of the numbers in a
/// table, as `BinaryExtension::is_primitive` does.
pub fn is_primitive_modulus(degree: u32, tail: u128) -> bool
    ensures complete { IsPrimitiveModulus degree tail → IsTrue result }
    ensures field { IsTrue result → IsFieldModulus degree tail }
    ensures sound { TableIsPrime → IsTrue result → IsPrimitiveModulus degree tail }
{
    match BinaryExtension::new(degree, tail) {
        Ok(field) => field.is_primitive(times_x(degree, tail, 1)),
        Err(_) => false,
    }
}

/// The least tail from `tail` on, as a number, with which x^degree + tail is an irreducible polynomial of degree 1 to 128. `None` exactly
/// where there is none. From `tail + 1` on it is the next after one. One in `degree` of the polynomials is irreducible, on average.
pub fn next_irreducible(degree: u32, tail: u128) -> Option<u128>
    ensures found { IfSome result (λ t. (tail ≤ t) × IsFieldModulus degree t) }
    ensures least { IfSome result (λ t. (u : ℕ) → u < t → tail ≤ u → IsFieldModulus degree u → ⊥) }
    ensures none { IfNone result ((u : ℕ) → tail ≤ u → IsFieldModulus degree u → ⊥) }
{
    next::<Irreducible>(degree, tail)
}

/// The low `degree` bits of the first draw that are the tail of an irreducible polynomial: from uniform draws, one that is drawn uniformly
/// from those of the degree. `None` exactly where no draw has such bits, or the degree is not 1 to 128.
pub fn random_irreducible(degree: u32, draws: &[u128]) -> Option<u128>
    ensures found { IfSome result (λ t. (i : ℕ) × (i < length draws.now) × (t ≡ slice_index draws.now i % 2 ^ degree)
        × IsFieldModulus degree t × ((j : ℕ) → j < i → IsFieldModulus degree (slice_index draws.now j % 2 ^ degree) → ⊥)) }
    ensures none { IfNone result ((j : ℕ) → j < length draws.now → IsFieldModulus degree (slice_index draws.now j % 2 ^ degree) → ⊥) }
{
    drawn::<Irreducible>(degree, draws)
}

/// The least k with which x^degree + x^k + 1 is an irreducible polynomial of degree 1 to 128. `None` exactly where no polynomial of that
/// degree and three terms is irreducible.
pub fn irreducible_trinomial(degree: u32) -> Option<u32>
    ensures found { IfSome result (λ k. (0 < k) × (k < degree) × IsFieldModulus degree (bit_xor (2 ^ k) 1)) }
    ensures least { IfSome result (λ k. (j : ℕ) → 0 < j → j < k → IsFieldModulus degree (bit_xor (2 ^ j) 1) → ⊥) }
    ensures none { IfNone result ((j : ℕ) → 0 < j → j < degree → IsFieldModulus degree (bit_xor (2 ^ j) 1) → ⊥) }
{
    three_terms::<Irreducible>(degree)
}

/// The exponents a > b > c > 0 with which x^degree + x^a + x^b + x^c + 1 is an irreducible polynomial of degree 1 to 128, of which a is the
/// least, then b and then c. `None` exactly where no polynomial of that degree and five terms is irreducible.
pub fn irreducible_pentanomial(degree: u32) -> Option<(u32, u32, u32)>
    ensures found { IfSome result (λ found. (0 < found.2) × (found.2 < found.1) × (found.1 < found.0) × (found.0 < degree)
        × IsFieldModulus degree (bit_xor (bit_xor (bit_xor (2 ^ found.0) (2 ^ found.1)) (2 ^ found.2)) 1)) }
    ensures least_c { IfSome result (λ found. (k : ℕ) → 0 < k → k < found.2
        → IsFieldModulus degree (bit_xor (bit_xor (bit_xor (2 ^ found.0) (2 ^ found.1)) (2 ^ k)) 1) → ⊥) }
    ensures least_b { IfSome result (λ found. (j k : ℕ) → 0 < k → k < j → j < found.1
        → IsFieldModulus degree (bit_xor (bit_xor (bit_xor (2 ^ found.0) (2 ^ j)) (2 ^ k)) 1) → ⊥) }
    ensures least_a { IfSome result (λ found. (i j k : ℕ) → 0 < k → k < j → j < i → i < found.0
        → IsFieldModulus degree (bit_xor (bit_xor (bit_xor (2 ^ i) (2 ^ j)) (2 ^ k)) 1) → ⊥) }
    ensures none { IfNone result ((i j k : ℕ) → 0 < k → k < j → j < i → i < degree
        → IsFieldModulus degree (bit_xor (bit_xor (bit_xor (2 ^ i) (2 ^ j)) (2 ^ k)) 1) → ⊥) }
{
    five_terms::<Irreducible>(degree)
}

/// The least tail from `tail` on, as a number, with which x^degree + tail is a primitive polynomial of degree 1 to 128. `None` exactly where
/// there is none. Nothing primitive is passed over; what is found is irreducible, and that it is primitive rests on the table of primes, as
/// `is_primitive_modulus` does. From `tail + 1` on it is the next after one.
pub fn next_primitive(degree: u32, tail: u128) -> Option<u128>
    ensures found { IfSome result (λ t. (tail ≤ t) × IsFieldModulus degree t × (TableIsPrime → IsPrimitiveModulus degree t)) }
    ensures least { IfSome result (λ t. (u : ℕ) → u < t → tail ≤ u → IsPrimitiveModulus degree u → ⊥) }
    ensures none { IfNone result ((u : ℕ) → tail ≤ u → IsPrimitiveModulus degree u → ⊥) }
{
    next::<Primitive>(degree, tail)
}

/// The low `degree` bits of the first draw that are the tail of a primitive polynomial: from uniform draws, one that is drawn uniformly from
/// those of the degree. `None` exactly where no draw has such bits, or the degree is not 1 to 128. It rests on the table of primes, as
/// `next_primitive` does.
pub fn random_primitive(degree: u32, draws: &[u128]) -> Option<u128>
    ensures found { IfSome result (λ t. (i : ℕ) × (i < length draws.now) × (t ≡ slice_index draws.now i % 2 ^ degree)
        × IsFieldModulus degree t × (TableIsPrime → IsPrimitiveModulus degree t)
        × ((j : ℕ) → j < i → IsPrimitiveModulus degree (slice_index draws.now j % 2 ^ degree) → ⊥)) }
    ensures none { IfNone result ((j : ℕ) → j < length draws.now → IsPrimitiveModulus degree (slice_index draws.now j % 2 ^ degree) → ⊥) }
{
    drawn::<Primitive>(degree, draws)
}

/// The least k with which x^degree + x^k + 1 is a primitive polynomial of degree 1 to 128. `None` exactly where no polynomial of that degree
/// and three terms is primitive. It rests on the table of primes, as `next_primitive` does.
pub fn primitive_trinomial(degree: u32) -> Option<u32>
    ensures found { IfSome result (λ k. (0 < k) × (k < degree) × IsFieldModulus degree (bit_xor (2 ^ k) 1)
        × (TableIsPrime → IsPrimitiveModulus degree (bit_xor (2 ^ k) 1))) }
    ensures least { IfSome result (λ k. (j : ℕ) → 0 < j → j < k → IsPrimitiveModulus degree (bit_xor (2 ^ j) 1) → ⊥) }
    ensures none { IfNone result ((j : ℕ) → 0 < j → j < degree → IsPrimitiveModulus degree (bit_xor (2 ^ j) 1) → ⊥) }
{
    three_terms::<Primitive>(degree)
}

/// The exponents a > b > c > 0 with which x^degree + x^a + x^b + x^c + 1 is a primitive polynomial of degree 1 to 128, of which a is the
/// least, then b and then c. `None` exactly where no polynomial of that degree and five terms is primitive. It rests on the table of primes,
/// as `next_primitive` does.
pub fn primitive_pentanomial(degree: u32) -> Option<(u32, u32, u32)>
    ensures found { IfSome result (λ found. (0 < found.2) × (found.2 < found.1) × (found.1 < found.0) × (found.0 < degree)
        × IsFieldModulus degree (bit_xor (bit_xor (bit_xor (2 ^ found.0) (2 ^ found.1)) (2 ^ found.2)) 1)
        × (TableIsPrime → IsPrimitiveModulus degree (bit_xor (bit_xor (bit_xor (2 ^ found.0) (2 ^ found.1)) (2 ^ found.2)) 1))) }
    ensures least_c { IfSome result (λ found. (k : ℕ) → 0 < k → k < found.2
        → IsPrimitiveModulus degree (bit_xor (bit_xor (bit_xor (2 ^ found.0) (2 ^ found.1)) (2 ^ k)) 1) → ⊥) }
    ensures least_b { IfSome result (λ found. (j k : ℕ) → 0 < k → k < j → j < found.1
        → IsPrimitiveModulus degree (bit_xor (bit_xor (bit_xor (2 ^ found.0) (2 ^ j)) (2 ^ k)) 1) → ⊥) }
    ensures least_a { IfSome result (λ found. (i j k : ℕ) → 0 < k → k < j → j < i → i < found.0
        → IsPrimitiveModulus degree (bit_xor (bit_xor (bit_xor (2 ^ i) (2 ^ j)) (2 ^ k)) 1) → ⊥) }
    ensures none { IfNone result ((i j k : ℕ) → 0 < k → k < j → j < i → i < degree
        → IsPrimitiveModulus degree (bit_xor (bit_xor (bit_xor (2 ^ i) (2 ^ j)) (2 ^ k)) 1) → ⊥) }
{
    five_terms::<Primitive>(degree)
}
