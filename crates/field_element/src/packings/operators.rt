// Written by scripts/make_impls.py; do not edit.
// The operators of packings with an element on the left, one of the packing's field, and of packings of `Ghash128` with an element of
// `BinaryField128` on either side. It, or its image, stands in every lane.
ghost use Rattle.std.specs.Prelude.{◌≡◌, bit_xor, map, replicate};
ghost use Rattle.field_base.specs.Remainder.{ghash_modulus, mul_mod};
ghost use Rattle.field_element.specs.Element.{repr_of};
ghost use Rattle.field_element.specs.GhashLanes.{ghash_image};
ghost use Rattle.packed_lanes.specs.Lanes.{lane_by_lane};
ghost use Rattle.packed_lanes.specs.Packed.{EachLaneIs, lanes_of};

use crate::element::{Element, HasPacking};
use crate::names::{BinaryField128, Ghash128, PackedGhash128};
use field_base::Stored;
use packed_lanes::Packed;
use std::ops::{Add, AddAssign, Mul, MulAssign, Sub, SubAssign};

impl<R: Stored, K: HasPacking<R>, const N: usize> Add<Packed<Element<R, K>, N>> for Element<R, K> {
    type Output = Packed<Element<R, K>, N>;

    ghost add_gives = { λ x y r.
        map repr_of (lanes_of r) ≡ lane_by_lane bit_xor (map repr_of (lanes_of y)) (map repr_of (replicate N x)) };

    #[inline]
    fn add(self, other: Packed<Element<R, K>, N>) -> Packed<Element<R, K>, N> {
        other + self
    }
}

impl<R: Stored, K: HasPacking<R>, const N: usize> Sub<Packed<Element<R, K>, N>> for Element<R, K> {
    type Output = Packed<Element<R, K>, N>;

    ghost sub_gives = { λ x y r.
        map repr_of (lanes_of r) ≡ lane_by_lane bit_xor (map repr_of (lanes_of y)) (map repr_of (replicate N x)) };

    #[inline]
    fn sub(self, other: Packed<Element<R, K>, N>) -> Packed<Element<R, K>, N> {
        other - self
    }
}

impl<R: Stored, K: HasPacking<R>, const N: usize> Mul<Packed<Element<R, K>, N>> for Element<R, K> {
    type Output = Packed<Element<R, K>, N>;

    ghost mul_gives = { λ x y r.
        map repr_of (lanes_of r) ≡ lane_by_lane K.product (map repr_of (lanes_of y)) (map repr_of (replicate N x)) };

    #[inline]
    fn mul(self, other: Packed<Element<R, K>, N>) -> Packed<Element<R, K>, N> {
        other * self
    }
}

impl Add<PackedGhash128> for BinaryField128 {
    type Output = PackedGhash128;

    ghost add_gives = { λ x y r. EachLaneIs repr_of r bit_xor y (ghash_image (repr_of x)) };

    #[inline]
    fn add(self, other: PackedGhash128) -> PackedGhash128 {
        other + self
    }
}

impl Sub<PackedGhash128> for BinaryField128 {
    type Output = PackedGhash128;

    ghost sub_gives = { λ x y r. EachLaneIs repr_of r bit_xor y (ghash_image (repr_of x)) };

    #[inline]
    fn sub(self, other: PackedGhash128) -> PackedGhash128 {
        other - self
    }
}

impl Mul<PackedGhash128> for BinaryField128 {
    type Output = PackedGhash128;

    ghost mul_gives = { λ x y r. EachLaneIs repr_of r (mul_mod 128 ghash_modulus) y (ghash_image (repr_of x)) };

    #[inline]
    fn mul(self, other: PackedGhash128) -> PackedGhash128 {
        other * self
    }
}

impl Add<BinaryField128> for PackedGhash128 {
    type Output = PackedGhash128;

    ghost add_gives = { λ x y r. EachLaneIs repr_of r bit_xor x (ghash_image (repr_of y)) };

    #[inline]
    fn add(self, other: BinaryField128) -> PackedGhash128 {
        self + Ghash128::from(other)
    }
}

impl Sub<BinaryField128> for PackedGhash128 {
    type Output = PackedGhash128;

    ghost sub_gives = { λ x y r. EachLaneIs repr_of r bit_xor x (ghash_image (repr_of y)) };

    #[inline]
    fn sub(self, other: BinaryField128) -> PackedGhash128 {
        self - Ghash128::from(other)
    }
}

impl Mul<BinaryField128> for PackedGhash128 {
    type Output = PackedGhash128;

    ghost mul_gives = { λ x y r. EachLaneIs repr_of r (mul_mod 128 ghash_modulus) x (ghash_image (repr_of y)) };

    #[inline]
    fn mul(self, other: BinaryField128) -> PackedGhash128 {
        self * Ghash128::from(other)
    }
}

impl AddAssign<BinaryField128> for PackedGhash128 {
    ghost add_assign_gives = { λ x y r. EachLaneIs repr_of r bit_xor x (ghash_image (repr_of y)) };

    #[inline]
    fn add_assign(&mut self, other: BinaryField128) {
        *self += Ghash128::from(other);
    }
}

impl SubAssign<BinaryField128> for PackedGhash128 {
    ghost sub_assign_gives = { λ x y r. EachLaneIs repr_of r bit_xor x (ghash_image (repr_of y)) };

    #[inline]
    fn sub_assign(&mut self, other: BinaryField128) {
        *self -= Ghash128::from(other);
    }
}

impl MulAssign<BinaryField128> for PackedGhash128 {
    ghost mul_assign_gives = { λ x y r. EachLaneIs repr_of r (mul_mod 128 ghash_modulus) x (ghash_image (repr_of y)) };

    #[inline]
    fn mul_assign(&mut self, other: BinaryField128) {
        *self *= Ghash128::from(other);
    }
}
