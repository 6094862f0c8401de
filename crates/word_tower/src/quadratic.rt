// Arithmetic in a quadratic extension of a level of the tower by a root X of X² + t X + 1, where t is the root that the
// level adjoined. Every level above GF(2) is such an extension of the level below; what is computed from the halves of an
// element is here once for all of them.
ghost use Rattle.std.specs.Prelude.{◌≡◌, ◌≢◌, ◌<◌, ◌^◌, ◌/◌, ℕ, suc, bit_xor};
ghost use Rattle.field_base.specs.Norm.{conjugate};
ghost use Rattle.field_base.specs.Powers.{repeated_square};
ghost use Rattle.field_base.specs.Quadratic.{pair};
ghost use Rattle.field_base.specs.Tower.{root, tower_mul};

use crate::extension::Extension;
use crate::level::Level;
use field_base::{Stored, Unsigned};

/// The product of two elements, by three products of the level below:
/// (a0 + a1 X)(b0 + b1 X) = (a0 b0 + a1 b1) + ((a0 + a1)(b0 + b1) + a0 b0 + a1 b1 + t a1 b1) X.
#[inline]
pub fn multiply<R: Unsigned, E: Extension<R>>(a: R, b: R) -> R
    ensures { R.number result ≡ tower_mul (suc E.Below.LEVEL) (R.number a) (R.number b) }
{
    let (a0, a1) = (E::low(a), E::high(a));
    let (b0, b1) = (E::low(b), E::high(b));
    let low = E::Below::multiply(a0, b0);
    let high = E::Below::multiply(a1, b1);
    let mixed = E::Below::multiply(a0.xor(a1), b0.xor(b1));
    join_products::<R, E>(low, high, mixed)
}

/// The product of two elements by its definition, from three products of the level below that are by definition, too.
#[inline]
pub fn reference_multiply<R: Unsigned, E: Extension<R>>(a: R, b: R) -> R
    ensures { R.number result ≡ tower_mul (suc E.Below.LEVEL) (R.number a) (R.number b) }
{
    let (a0, a1) = (E::low(a), E::high(a));
    let (b0, b1) = (E::low(b), E::high(b));
    let low = E::Below::reference_multiply(a0, b0);
    let high = E::Below::reference_multiply(a1, b1);
    let mixed = E::Below::reference_multiply(a0.xor(a1), b0.xor(b1));
    join_products::<R, E>(low, high, mixed)
}

/// The square of an element: (a0 + a1 X)² = (a0² + a1²) + t a1² X.
#[inline]
pub fn square<R: Unsigned, E: Extension<R>>(a: R) -> R
    ensures { R.number result ≡ tower_mul (suc E.Below.LEVEL) (R.number a) (R.number a) }
{
    let low = E::Below::square(E::low(a));
    let high = E::Below::square(E::high(a));
    let by_root = E::Below::multiply_by_root(high);
    E::join(low.xor(high), by_root)
}

/// The product by the root: X (a0 + a1 X) = a1 + (a0 + t a1) X.
#[inline]
pub fn multiply_by_root<R: Unsigned, E: Extension<R>>(a: R) -> R
    ensures { R.number result ≡ tower_mul (suc E.Below.LEVEL) (root (suc E.Below.LEVEL)) (R.number a) }
{
    let (low, high) = (E::low(a), E::high(a));
    E::join(high, low.xor(E::Below::multiply_by_root(high)))
}

/// The quotient by the root: (a0 + a1 X) / X = (a1 + t a0) + a0 X.
#[inline]
pub fn divide_by_root<R: Unsigned, E: Extension<R>>(a: R) -> R
    requires { R.number a < 2 ^ 2 ^ suc E.Below.LEVEL }
    ensures { tower_mul (suc E.Below.LEVEL) (root (suc E.Below.LEVEL)) (R.number result) ≡ R.number a }
{
    let (low, high) = (E::low(a), E::high(a));
    E::join(high.xor(E::Below::multiply_by_root(low)), low)
}

/// The conjugate of an element, in which the other root X + t of the polynomial replaces X: (a0 + t a1) + a1 X. It is the
/// element squared half as many times as it has bits.
#[inline]
#[tactic(auto, using(crate::proofs::Halves::product_lt, crate::proofs::Halves::sum_lt, crate::proofs::Halves::conjugate_is_squarings))]
pub fn conjugate_of<R: Unsigned, E: Extension<R>>(a: R) -> R
    ensures conjugate { R.number result ≡ conjugate (2 ^ E.Below.LEVEL) (tower_mul E.Below.LEVEL) (root E.Below.LEVEL) (R.number a) }
    ensures squarings { let k = suc E.Below.LEVEL in R.number result ≡ repeated_square 1 (tower_mul k) (2 ^ k / 2) (R.number a) }
{
    let (low, high) = (E::low(a), E::high(a));
    E::join(conjugate_low::<R, E>(low, high), high)
}

/// The inverse of an element, its conjugate (a0 + t a1) + a1 X over its norm, and 0 for 0. The norm is 0 only for 0, whose
/// conjugate is 0, so that no element is compared with 0.
#[inline]
#[tactic(auto, using(crate::proofs::Halves::product_lt, crate::proofs::Halves::sum_lt, crate::proofs::Halves::high_lt))]
pub fn invert<R: Unsigned, E: Extension<R>>(a: R) -> R
    requires { R.number a < 2 ^ 2 ^ suc E.Below.LEVEL }
    ensures fits { R.number result < 2 ^ 2 ^ suc E.Below.LEVEL }
    ensures zero { R.number a ≡ 0 → R.number result ≡ 0 }
    ensures inverse { R.number a ≢ 0 → tower_mul (suc E.Below.LEVEL) (R.number a) (R.number result) ≡ 1 }
{
    let (low, high) = (E::low(a), E::high(a));
    let other_low = conjugate_low::<R, E>(low, high);
    let norm = norm_by_conjugate::<R, E>(low, high, other_low);
    let halves = E::Below::divide_both(other_low, high, norm);
    E::join(halves.0, halves.1)
}

// The low half a0 + t a1 of the conjugate of a0 + a1 X.
#[inline]
fn conjugate_low<R: Unsigned, E: Extension<R>>(low: E::Half, high: E::Half) -> E::Half
    ensures { let k = E.Below.LEVEL in E.Half.number result ≡ bit_xor (E.Half.number low) (tower_mul k (root k) (E.Half.number high)) }
{
    low.xor(E::Below::multiply_by_root(high))
}

// The norm of a0 + a1 X, its product with its conjugate, from the low half of the conjugate: a0 (a0 + t a1) + a1².
#[inline]
fn norm_by_conjugate<R: Unsigned, E: Extension<R>>(
    low: E::Half,
    high: E::Half,
    other_low: E::Half,
) -> E::Half
    ensures { let k = E.Below.LEVEL in let h = E.Half.number high in
        E.Half.number result ≡ bit_xor (tower_mul k (E.Half.number low) (E.Half.number other_low)) (tower_mul k h h) }
{
    E::Below::multiply(low, other_low).xor(E::Below::square(high))
}

// The element of three products of the level below, by Karatsuba's rule: of the low halves, of the high halves, and of the
// sums of the halves.
#[inline]
#[tactic(auto, using(crate::proofs::Halves::product_lt, crate::proofs::Halves::sum_lt))]
fn join_products<R: Unsigned, E: Extension<R>>(low: E::Half, high: E::Half, mixed: E::Half) -> R
    requires low { E.Half.number low < 2 ^ 2 ^ E.Below.LEVEL }
    requires high { E.Half.number high < 2 ^ 2 ^ E.Below.LEVEL }
    requires mixed { E.Half.number mixed < 2 ^ 2 ^ E.Below.LEVEL }
    ensures { let l = E.Half.number low in let h = E.Half.number high in
        R.number result ≡ pair (2 ^ E.Below.LEVEL) (bit_xor l h)
        (bit_xor (bit_xor (bit_xor (E.Half.number mixed) l) h) (tower_mul E.Below.LEVEL (root E.Below.LEVEL) h)) }
{
    let by_root = E::Below::multiply_by_root(high);
    E::join(low.xor(high), mixed.xor(low).xor(high).xor(by_root))
}
