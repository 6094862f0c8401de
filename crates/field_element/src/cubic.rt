// What the cubic extension of `Poly64` has of its own, and how `Poly64` lies in it: an element is coefficient 0.
ghost use Rattle.std.specs.Prelude.{◌≡◌, ◌≢◌, ◌<◌, ◌^◌, ℕ, map, refl};
ghost use Rattle.field_base.specs.Chunks.{chunks};
ghost use Rattle.field_base.specs.lemmas.Operators.{given};
ghost use Rattle.field_base.specs.Remainder.{mul_mod, poly64_modulus};
ghost use Rattle.word_polynomial.specs.Cubic.{cubic};
ghost use Rattle.field_element.specs.Element.{repr_of};

use crate::element::{Coefficients, Element};
use crate::names::{Poly64, Poly192};
use field_base::traits::{Algebra, TowerLevel};
use field_base::{Contains, FieldKernel};
use std::ops::{Div, DivAssign};
use word_polynomial::{CubicKernel, Poly64Kernel};

impl Poly192 {
    /// The element c0 + c1 y + c2 y² of the coefficients [c0, c1, c2].
    pub fn new(coefficients: [Poly64; 3]) -> Poly192
        ensures { chunks 64 3 (repr_of result) ≡ map repr_of coefficients }
    {
        Element::of_word(Coefficients::new(coefficients))
    }

    /// The coefficients [c0, c1, c2] of the element c0 + c1 y + c2 y².
    pub fn coefficients(self) -> [Poly64; 3]
        ensures { map repr_of result ≡ chunks 64 3 (repr_of self) }
    {
        self.word().array()
    }

    /// The coefficients [c0, c1, c2] where they lie.
    #[inline]
    pub fn coefficient_slice(&self) -> &[Poly64]
        ensures { map repr_of result.now ≡ chunks 64 3 (repr_of self.now) }
    {
        self.stored().as_slice()
    }

    /// The product, by products of coefficients. It is what `*` gives.
    pub fn composed_mul(self, other: Poly192) -> Poly192
        ensures { repr_of result ≡ cubic 64 (mul_mod 64 poly64_modulus) (repr_of self) (repr_of other) }
    {
        self * other
    }

    /// The inverse, and 0 for 0.
    pub fn invert_or_zero(self) -> Poly192
        ensures zero { repr_of self ≡ 0 → repr_of result ≡ 0 }
        ensures inverse { repr_of self ≢ 0 → cubic 64 (mul_mod 64 poly64_modulus) (repr_of self) (repr_of result) ≡ 1 }
    {
        Element::of_word(<CubicKernel as FieldKernel<Coefficients>>::invert(self.word()))
    }
}

impl From<Poly64> for Poly192 {
    ghost from_gives = { λ x r. repr_of r ≡ repr_of x };

    fn from(element: Poly64) -> Poly192 {
        Element::of_word(<CubicKernel as Contains<Coefficients, u64, Poly64Kernel>>::embed(
            element.to_repr(),
        ))
    }
}

impl Div<Poly64> for Poly192 {
    type Output = Poly192;

    ghost can_div = { λ x y. repr_of y ≢ 0 };

    ghost div_gives = { λ x y r. cubic 64 (mul_mod 64 poly64_modulus) (repr_of r) (repr_of y) ≡ repr_of x };

    #[inline]
    fn div(self, other: Poly64) -> Poly192 {
        self / Poly192::from(other)
    }
}

impl DivAssign<Poly64> for Poly192 {
    ghost can_div_assign = { λ x y. repr_of y ≢ 0 };

    ghost div_assign_gives = { λ x y r. cubic 64 (mul_mod 64 poly64_modulus) (repr_of r) (repr_of y) ≡ repr_of x };

    #[inline]
    fn div_assign(&mut self, other: Poly64) {
        *self = *self / other;
    }
}

impl Algebra<Poly64> for Poly192 {
    ghost use Rattle.field_base.proofs.RemainderRing.{poly64_ring};
    ghost use Rattle.word_polynomial.specs.lemmas.CubicRing.{cubic-low};

    ghost image = { λ a. a };

    ghost image_unit_law = { refl };

    ghost image_sum_law = { λ a b a_fits b_fits. refl };

    ghost image_product_law = { cubic-low 64 (mul_mod 64 poly64_modulus) poly64_ring };

    ghost image_injective_law = { λ proper a b a_fits b_fits same. same };

    ghost image_from_law = { λ x r is. is };

    ghost operators_law = { λ x y. (given, given, given, given, given, given) };
}
