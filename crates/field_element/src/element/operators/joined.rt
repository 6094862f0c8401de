// Written by scripts/make_impls.py; do not edit.
// The operators of two elements of fields of which one contains the other.
ghost use Rattle.std.specs.Prelude.{◌≡◌, bit_xor};

use crate::element::Element;
use field_base::{Contains, FieldKernel, Joins, Stored};
use std::marker::PhantomData;
use std::ops::{Add, AddAssign, Mul, MulAssign, Sub, SubAssign};

impl<R: Stored, K: Joins<R, S, J>, S: Stored, J: FieldKernel<S>> Add<Element<S, J>>
    for Element<R, K> {
    type Output = Element<K::Upper, K::Field>;

    ghost add_gives = { λ x y r.
        let left = K.Field.Contains-1.image (R.number x.repr) in
        let right = K.Field.Contains-2.image (S.number y.repr) in
        K.Upper.number r.repr ≡ bit_xor left right };

    #[inline]
    fn add(self, other: Element<S, J>) -> Element<K::Upper, K::Field> {
        let left = <K::Field as Contains<K::Upper, R, K>>::embed(self.repr);
        let right = <K::Field as Contains<K::Upper, S, J>>::embed(other.repr);
        Element {
            repr: left.xor(right),
            field: PhantomData,
        }
    }
}

impl<R: Stored, K: Joins<R, S, J>, S: Stored, J: FieldKernel<S>> Sub<Element<S, J>>
    for Element<R, K> {
    type Output = Element<K::Upper, K::Field>;

    ghost sub_gives = { λ x y r.
        let left = K.Field.Contains-1.image (R.number x.repr) in
        let right = K.Field.Contains-2.image (S.number y.repr) in
        K.Upper.number r.repr ≡ bit_xor left right };

    #[inline]
    fn sub(self, other: Element<S, J>) -> Element<K::Upper, K::Field> {
        self + other
    }
}

impl<R: Stored, K: Joins<R, S, J>, S: Stored, J: FieldKernel<S>> Mul<Element<S, J>>
    for Element<R, K> {
    type Output = Element<K::Upper, K::Field>;

    ghost mul_gives = { λ x y r.
        let left = K.Field.Contains-1.image (R.number x.repr) in
        let right = K.Field.Contains-2.image (S.number y.repr) in
        K.Upper.number r.repr ≡ K.Field.product left right };

    #[inline]
    fn mul(self, other: Element<S, J>) -> Element<K::Upper, K::Field> {
        let left = <K::Field as Contains<K::Upper, R, K>>::embed(self.repr);
        let right = <K::Field as Contains<K::Upper, S, J>>::embed(other.repr);
        Element {
            repr: K::Field::multiply(left, right),
            field: PhantomData,
        }
    }
}

impl<R: Stored, K: Contains<R, S, J>, S: Stored, J: FieldKernel<S>> AddAssign<Element<S, J>>
    for Element<R, K> {
    ghost add_assign_gives = { λ x y r. R.number r.repr ≡ bit_xor (R.number x.repr) (K.image (S.number y.repr)) };

    #[inline]
    fn add_assign(&mut self, other: Element<S, J>) {
        *self = Element {
            repr: self.repr.xor(K::embed(other.repr)),
            field: PhantomData,
        };
    }
}

impl<R: Stored, K: Contains<R, S, J>, S: Stored, J: FieldKernel<S>> SubAssign<Element<S, J>>
    for Element<R, K> {
    ghost sub_assign_gives = { λ x y r. R.number r.repr ≡ bit_xor (R.number x.repr) (K.image (S.number y.repr)) };

    #[inline]
    fn sub_assign(&mut self, other: Element<S, J>) {
        *self += other;
    }
}

impl<R: Stored, K: Contains<R, S, J>, S: Stored, J: FieldKernel<S>> MulAssign<Element<S, J>>
    for Element<R, K> {
    ghost mul_assign_gives = { λ x y r. R.number r.repr ≡ K.product (R.number x.repr) (K.image (S.number y.repr)) };

    #[inline]
    fn mul_assign(&mut self, other: Element<S, J>) {
        *self = Element {
            repr: K::multiply(self.repr, K::embed(other.repr)),
            field: PhantomData,
        };
    }
}
