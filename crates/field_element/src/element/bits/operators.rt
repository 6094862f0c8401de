// Written by scripts/make_impls.py; do not edit.
// The operators of elements with an element of GF(2) on the right.
ghost use Rattle.std.specs.Prelude.{◌≡◌, bit_xor};
ghost use Rattle.field_base.specs.Bit.{bit_number as bit_of};
ghost use Rattle.field_element.specs.Element.{repr_of};

use crate::element::bits::times_bit;
use crate::element::{Element, value};
use field_base::{FieldKernel, Gf2, Stored};
use std::ops::{Add, AddAssign, Mul, MulAssign, Sub, SubAssign};

impl<R: Stored, K: FieldKernel<R>> Add<Gf2> for Element<R, K> {
    type Output = Element<R, K>;

    ghost add_gives = { λ x y r. repr_of r ≡ bit_xor (repr_of x) (bit_of y) };

    #[inline]
    fn add(self, bit: Gf2) -> Element<R, K> {
        self + Element::from(bit)
    }
}

impl<R: Stored, K: FieldKernel<R>> Sub<Gf2> for Element<R, K> {
    type Output = Element<R, K>;

    ghost sub_gives = { λ x y r. repr_of r ≡ bit_xor (repr_of x) (bit_of y) };

    #[inline]
    fn sub(self, bit: Gf2) -> Element<R, K> {
        self + bit
    }
}

impl<R: Stored, K: FieldKernel<R>> Mul<Gf2> for Element<R, K> {
    type Output = Element<R, K>;

    ghost mul_gives = { λ x y r. repr_of r ≡ K.product (repr_of x) (bit_of y) };

    #[inline]
    fn mul(self, bit: Gf2) -> Element<R, K> {
        times_bit(self, bit)
    }
}

impl<R: Stored, K: FieldKernel<R>> AddAssign<Gf2> for Element<R, K> {
    ghost add_assign_gives = { λ x y r. repr_of r ≡ bit_xor (repr_of x) (bit_of y) };

    #[inline]
    fn add_assign(&mut self, bit: Gf2) {
        *self += Element::from(bit);
    }
}

impl<R: Stored, K: FieldKernel<R>> SubAssign<Gf2> for Element<R, K> {
    ghost sub_assign_gives = { λ x y r. repr_of r ≡ bit_xor (repr_of x) (bit_of y) };

    #[inline]
    fn sub_assign(&mut self, bit: Gf2) {
        *self += bit;
    }
}

impl<R: Stored, K: FieldKernel<R>> MulAssign<Gf2> for Element<R, K> {
    ghost mul_assign_gives = { λ x y r. repr_of r ≡ K.product (repr_of x) (bit_of y) };

    #[inline]
    fn mul_assign(&mut self, bit: Gf2) {
        *self = times_bit(value(self), bit);
    }
}
