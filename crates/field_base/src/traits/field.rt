// Fields of characteristic two.
ghost use Rattle.std.specs.Prelude.{◌≡◌, ◌≢◌, ◌↔◌, ◌^◌, ◌<◌, ◌≤◌, ℕ, length, map, IsTrue, IsNone, IsSomeAnd, IfSome};
ghost use Rattle.field_base.specs.Field.{AreInverses, IsField};
ghost use Rattle.field_base.specs.Orders.{HasFullOrder};

use crate::traits::ring::PrimeCharacteristicRing;
use std::ops::{Div, DivAssign};

/// A field with 2 to the power of `bits` elements.
pub trait Field: PrimeCharacteristicRing + Div<Self, Output = Self> + DivAssign<Self> {
    /// The packing in which several elements are computed at once: of some fields a `PackedField` of more lanes, and of the
    /// others the field itself.
    type Packing;

    /// A generator: every nonzero element is a power of it. Up to 16 bits that is a law of this trait; above, it is tested.
    const GENERATOR: Self;

    ghost GENERATOR: { Self };

    /// The bits of an element's representation.
    fn bits() -> usize
        ensures { result ≡ Self.width };

    /// The inverse, by which the product is 1; None for 0 alone.
    fn try_inverse(&self) -> Option<Self>
        ensures none { IsNone result ↔ (Self.repr self.now ≡ 0) }
        ensures inverse { IfSome result (λ y. Self.product (Self.repr self.now) (Self.repr y) ≡ 1) };

    /// Whether the element is 0.
    fn is_zero(&self) -> bool
        ensures { IsTrue result ↔ (Self.repr self.now ≡ 0) }
    {
        *self == Self::ZERO
    }

    /// Whether the element is 1.
    fn is_one(&self) -> bool
        ensures { IsTrue result ↔ (Self.repr self.now ≡ 1) }
    {
        *self == Self::ONE
    }

    /// The inverse of an element that is not 0.
    final fn inverse(&self) -> Self
        requires { Self.repr self.now ≢ 0 }
        ensures { Self.product (Self.repr self.now) (Self.repr result) ≡ 1 }
    {
        match self.try_inverse() {
            Some(inverse) => inverse,
            None => unreachable!(),
        }
    }

    /// The square root, whose square is the element. Every element has one.
    fn try_sqrt(&self) -> Option<Self>
        ensures { IsSomeAnd result (λ root. Self.product (Self.repr root) (Self.repr root) ≡ Self.repr self.now) }
    {
        Some(self.exp_power_of_2(Self::bits() - 1))
    }

    /// The least number of elements whose inverses `invert_each` gives in less time than one inverse and three products an element take.
    const LEAST_INVERTED: usize = usize::MAX;

    /// Writes the inverse of each value to its place, and 0 for 0. The slices are of one length.
    fn invert_each(values: &[Self], inverses: &mut [Self])
        requires { length inverses.old ≡ length values.now }
        ensures { AreInverses Self.product (map Self.repr values.now) (map Self.repr inverses.new) }
    {
        for place in 0..values.len() {
            inverses[place] = match values[place].try_inverse() {
                Some(inverse) => inverse,
                None => Self::ZERO,
            };
        }
    }

    /// The n for which the field has 2 to the power of n elements.
    final fn order() -> usize
        ensures { result ≡ Self.width }
    {
        Self::bits()
    }

    /// The element of representation `i`, which has to be below 2 to the power of the field's bits.
    fn interpolation_node(i: usize) -> Self
        requires { i < 2 ^ Self.width }
        ensures { Self.repr result ≡ i };

    ghost generator_nonzero_law: { Self.repr GENERATOR ≢ 0 };

    ghost generator_law: { Self.width ≤ 16 → HasFullOrder Self.width Self.product (Self.repr GENERATOR) };

    ghost wide_law: { 0 < Self.width };

    ghost unit_law: { Self.unit ≡ 1 };

    ghost can_div_law: { (x y : Self) → Self.repr y ≢ 0 → Self.can_div x y };

    ghost div_law: { (x y r : Self) → Self.div_gives x y r → Self.product (Self.repr r) (Self.repr y) ≡ Self.repr x };

    ghost can_div_assign_law: { (x y : Self) → Self.repr y ≢ 0 → Self.can_div_assign x y };

    ghost div_assign_law: { (x y r : Self) → Self.div_assign_gives x y r → Self.product (Self.repr r) (Self.repr y) ≡ Self.repr x };

    // Every nonzero element has an inverse, and as many squarings as an element has bits return it.
    ghost field_law: { IsField Self.width Self.product };

    // Every number of as many bits is the representation of an element.
    ghost every_law: { (n : ℕ) → n < 2 ^ Self.width → (x : Self) × (Self.repr x ≡ n) };
}
