// Written by scripts/make_impls.py; do not edit.
// The operators of packings with an element of their field on the right, and with an element of GF(2) on either side, which stands in
// every lane.
ghost use Rattle.std.specs.Prelude.{◌≡◌, ◌*◌, bit_xor, map, replicate};
ghost use Rattle.field_base.specs.Bit.{bit_number as bit_of};
ghost use Rattle.packed_lanes.specs.Lanes.{lane_by_lane};
ghost use Rattle.packed_lanes.specs.Packed.{EachLaneIs};

use crate::packed::values::times_bit;
use crate::packed::{Laned, Packed};
use field_base::Gf2;
use std::ops::{Add, AddAssign, Mul, MulAssign, Sub, SubAssign};

impl<F: Laned, const N: usize> Add<F> for Packed<F, N> {
    type Output = Packed<F, N>;

    ghost add_gives = { λ x y r. map F.repr r.lanes ≡ lane_by_lane bit_xor (map F.repr x.lanes) (map F.repr (replicate N y)) };

    #[inline]
    fn add(self, other: F) -> Packed<F, N> {
        self + Packed::broadcast(other)
    }
}

impl<F: Laned, const N: usize> Sub<F> for Packed<F, N> {
    type Output = Packed<F, N>;

    ghost sub_gives = { λ x y r. map F.repr r.lanes ≡ lane_by_lane bit_xor (map F.repr x.lanes) (map F.repr (replicate N y)) };

    #[inline]
    fn sub(self, other: F) -> Packed<F, N> {
        self + other
    }
}

impl<F: Laned, const N: usize> Mul<F> for Packed<F, N> {
    type Output = Packed<F, N>;

    ghost mul_gives = { λ x y r. map F.repr r.lanes ≡ lane_by_lane F.product (map F.repr x.lanes) (map F.repr (replicate N y)) };

    #[inline]
    fn mul(self, other: F) -> Packed<F, N> {
        self * Packed::broadcast(other)
    }
}

impl<F: Laned, const N: usize> AddAssign<F> for Packed<F, N> {
    ghost add_assign_gives = { λ x y r. map F.repr r.lanes ≡ lane_by_lane bit_xor (map F.repr x.lanes) (map F.repr (replicate N y)) };

    #[inline]
    fn add_assign(&mut self, other: F) {
        *self = Packed { lanes: self.lanes } + other;
    }
}

impl<F: Laned, const N: usize> SubAssign<F> for Packed<F, N> {
    ghost sub_assign_gives = { λ x y r. map F.repr r.lanes ≡ lane_by_lane bit_xor (map F.repr x.lanes) (map F.repr (replicate N y)) };

    #[inline]
    fn sub_assign(&mut self, other: F) {
        *self = Packed { lanes: self.lanes } + other;
    }
}

impl<F: Laned, const N: usize> MulAssign<F> for Packed<F, N> {
    ghost mul_assign_gives = { λ x y r. map F.repr r.lanes ≡ lane_by_lane F.product (map F.repr x.lanes) (map F.repr (replicate N y)) };

    #[inline]
    fn mul_assign(&mut self, other: F) {
        *self = Packed { lanes: self.lanes } * other;
    }
}

impl<F: Laned, const N: usize> Add<Gf2> for Packed<F, N> {
    type Output = Packed<F, N>;

    ghost add_gives = { λ x y r. EachLaneIs F.repr r bit_xor x (bit_of y * F.unit) };

    #[inline]
    fn add(self, bit: Gf2) -> Packed<F, N> {
        let every: Packed<F, N> = Packed::from(bit);
        self + every
    }
}

impl<F: Laned, const N: usize> Sub<Gf2> for Packed<F, N> {
    type Output = Packed<F, N>;

    ghost sub_gives = { λ x y r. EachLaneIs F.repr r bit_xor x (bit_of y * F.unit) };

    #[inline]
    fn sub(self, bit: Gf2) -> Packed<F, N> {
        self + bit
    }
}

impl<F: Laned, const N: usize> Mul<Gf2> for Packed<F, N> {
    type Output = Packed<F, N>;

    ghost mul_gives = { λ x y r. EachLaneIs F.repr r F.product x (bit_of y * F.unit) };

    #[inline]
    fn mul(self, bit: Gf2) -> Packed<F, N> {
        times_bit(self, bit)
    }
}

impl<F: Laned, const N: usize> AddAssign<Gf2> for Packed<F, N> {
    ghost add_assign_gives = { λ x y r. EachLaneIs F.repr r bit_xor x (bit_of y * F.unit) };

    #[inline]
    fn add_assign(&mut self, bit: Gf2) {
        *self = Packed { lanes: self.lanes } + bit;
    }
}

impl<F: Laned, const N: usize> SubAssign<Gf2> for Packed<F, N> {
    ghost sub_assign_gives = { λ x y r. EachLaneIs F.repr r bit_xor x (bit_of y * F.unit) };

    #[inline]
    fn sub_assign(&mut self, bit: Gf2) {
        *self = Packed { lanes: self.lanes } + bit;
    }
}

impl<F: Laned, const N: usize> MulAssign<Gf2> for Packed<F, N> {
    ghost mul_assign_gives = { λ x y r. EachLaneIs F.repr r F.product x (bit_of y * F.unit) };

    #[inline]
    fn mul_assign(&mut self, bit: Gf2) {
        *self = Packed { lanes: self.lanes } * bit;
    }
}

impl<F: Laned, const N: usize> Add<Packed<F, N>> for Gf2 {
    type Output = Packed<F, N>;

    ghost add_gives = { λ x y r. EachLaneIs F.repr r bit_xor y (bit_of x * F.unit) };

    #[inline]
    fn add(self, packed: Packed<F, N>) -> Packed<F, N> {
        packed + self
    }
}

impl<F: Laned, const N: usize> Sub<Packed<F, N>> for Gf2 {
    type Output = Packed<F, N>;

    ghost sub_gives = { λ x y r. EachLaneIs F.repr r bit_xor y (bit_of x * F.unit) };

    #[inline]
    fn sub(self, packed: Packed<F, N>) -> Packed<F, N> {
        packed + self
    }
}

impl<F: Laned, const N: usize> Mul<Packed<F, N>> for Gf2 {
    type Output = Packed<F, N>;

    ghost mul_gives = { λ x y r. EachLaneIs F.repr r F.product y (bit_of x * F.unit) };

    #[inline]
    fn mul(self, packed: Packed<F, N>) -> Packed<F, N> {
        packed * self
    }
}
