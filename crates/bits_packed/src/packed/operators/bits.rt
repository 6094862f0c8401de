// Written by scripts/make_impls.py; do not edit.
// The operators of packed bits with an element of GF(2) on the right, which stands in every lane.
ghost use Rattle.std.specs.Prelude.{◌≡◌, ◌-◌, ◌*◌, ◌^◌, bit_xor};
ghost use Rattle.field_base.specs.Bit.{bit_number};

use crate::packed::operators::times_bit;
use crate::packed::{PackedGf2, value};
use field_base::Gf2;
use packed_lanes::Underlier;
use std::ops::{Add, AddAssign, Mul, MulAssign, Sub, SubAssign};

impl<U: Underlier> Add<Gf2> for PackedGf2<U> {
    type Output = PackedGf2<U>;

    ghost add_gives = { λ x y r. U.number r.bits ≡ bit_xor (U.number x.bits) (bit_number y * (2 ^ U.BITS - 1)) };

    #[inline]
    fn add(self, other: Gf2) -> PackedGf2<U> {
        self + PackedGf2::broadcast(other)
    }
}

impl<U: Underlier> Sub<Gf2> for PackedGf2<U> {
    type Output = PackedGf2<U>;

    ghost sub_gives = { λ x y r. U.number r.bits ≡ bit_xor (U.number x.bits) (bit_number y * (2 ^ U.BITS - 1)) };

    #[inline]
    fn sub(self, other: Gf2) -> PackedGf2<U> {
        self + other
    }
}

impl<U: Underlier> Mul<Gf2> for PackedGf2<U> {
    type Output = PackedGf2<U>;

    ghost mul_gives = { λ x y r. U.number r.bits ≡ bit_number y * U.number x.bits };

    #[inline]
    fn mul(self, other: Gf2) -> PackedGf2<U> {
        times_bit(self, other)
    }
}

impl<U: Underlier> AddAssign<Gf2> for PackedGf2<U> {
    ghost add_assign_gives = { λ x y r. U.number r.bits ≡ bit_xor (U.number x.bits) (bit_number y * (2 ^ U.BITS - 1)) };

    #[inline]
    fn add_assign(&mut self, other: Gf2) {
        *self = value(self) + other;
    }
}

impl<U: Underlier> SubAssign<Gf2> for PackedGf2<U> {
    ghost sub_assign_gives = { λ x y r. U.number r.bits ≡ bit_xor (U.number x.bits) (bit_number y * (2 ^ U.BITS - 1)) };

    #[inline]
    fn sub_assign(&mut self, other: Gf2) {
        *self = value(self) + other;
    }
}

impl<U: Underlier> MulAssign<Gf2> for PackedGf2<U> {
    ghost mul_assign_gives = { λ x y r. U.number r.bits ≡ bit_number y * U.number x.bits };

    #[inline]
    fn mul_assign(&mut self, other: Gf2) {
        *self = value(self) * other;
    }
}
