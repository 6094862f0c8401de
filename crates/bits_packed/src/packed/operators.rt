// The operators of packed bits: sums and products go lane by lane.
ghost use Rattle.std.specs.Prelude.{◌≡◌, ◌≢◌, ◌<◌, ◌-◌, ◌*◌, ◌^◌, bit_xor};
ghost use Rattle.field_base.specs.Bit.{bit_number};
ghost use Rattle.bits_packed.specs.Lanes.{bitwise_product};

mod bits;

use crate::packed::{PackedGf2, value};
use field_base::Gf2;
use field_base::traits::TowerLevel;
use packed_lanes::{Underlier, bits_and, bits_xor};
use std::ops::{Add, AddAssign, Div, DivAssign, Mul, MulAssign, Neg, Sub, SubAssign};

impl<U: Underlier> Add<PackedGf2<U>> for PackedGf2<U> {
    type Output = PackedGf2<U>;

    ghost add_gives = { λ x y r. U.number r.bits ≡ bit_xor (U.number x.bits) (U.number y.bits) };

    #[inline]
    fn add(self, other: PackedGf2<U>) -> PackedGf2<U> {
        PackedGf2 {
            bits: bits_xor(&self.bits, &other.bits),
        }
    }
}

impl<U: Underlier> AddAssign<PackedGf2<U>> for PackedGf2<U> {
    ghost add_assign_gives = { λ x y r. U.number r.bits ≡ bit_xor (U.number x.bits) (U.number y.bits) };

    #[inline]
    fn add_assign(&mut self, other: PackedGf2<U>) {
        *self = value(self) + other;
    }
}

impl<U: Underlier> Sub<PackedGf2<U>> for PackedGf2<U> {
    type Output = PackedGf2<U>;

    ghost sub_gives = { λ x y r. U.number r.bits ≡ bit_xor (U.number x.bits) (U.number y.bits) };

    #[inline]
    fn sub(self, other: PackedGf2<U>) -> PackedGf2<U> {
        self + other
    }
}

impl<U: Underlier> SubAssign<PackedGf2<U>> for PackedGf2<U> {
    ghost sub_assign_gives = { λ x y r. U.number r.bits ≡ bit_xor (U.number x.bits) (U.number y.bits) };

    #[inline]
    fn sub_assign(&mut self, other: PackedGf2<U>) {
        *self = value(self) + other;
    }
}

impl<U: Underlier> Neg for PackedGf2<U> {
    type Output = PackedGf2<U>;

    ghost neg_gives = { λ x r. U.number r.bits ≡ U.number x.bits };

    #[inline]
    fn neg(self) -> PackedGf2<U> {
        self
    }
}

impl<U: Underlier> Mul<PackedGf2<U>> for PackedGf2<U> {
    type Output = PackedGf2<U>;

    ghost mul_gives = { λ x y r. U.number r.bits ≡ bitwise_product U.BITS (U.number x.bits) (U.number y.bits) };

    #[inline]
    fn mul(self, other: PackedGf2<U>) -> PackedGf2<U> {
        PackedGf2 {
            bits: bits_and(&self.bits, &other.bits),
        }
    }
}

impl<U: Underlier> MulAssign<PackedGf2<U>> for PackedGf2<U> {
    ghost mul_assign_gives = { λ x y r. U.number r.bits ≡ bitwise_product U.BITS (U.number x.bits) (U.number y.bits) };

    #[inline]
    fn mul_assign(&mut self, other: PackedGf2<U>) {
        *self = value(self) * other;
    }
}

// The packed bits times a bit.
#[inline]
fn times_bit<U: Underlier>(packed: PackedGf2<U>, bit: Gf2) -> PackedGf2<U>
    ensures { U.number result.bits ≡ bit_number bit * U.number packed.bits }
{
    if bit.to_repr() == 1 {
        packed
    } else {
        PackedGf2::new(U::ZERO)
    }
}

impl<U: Underlier> Div<Gf2> for PackedGf2<U> {
    type Output = PackedGf2<U>;

    ghost can_div = { λ x y. bit_number y ≢ 0 };

    ghost div_gives = { λ x y r. bit_number y * U.number r.bits ≡ U.number x.bits };

    // The only divisor is 1.
    #[inline]
    fn div(self, _other: Gf2) -> PackedGf2<U> {
        self
    }
}

impl<U: Underlier> DivAssign<Gf2> for PackedGf2<U> {
    ghost can_div_assign = { λ x y. bit_number y ≢ 0 };

    ghost div_assign_gives = { λ x y r. bit_number y * U.number r.bits ≡ U.number x.bits };

    #[inline]
    fn div_assign(&mut self, other: Gf2) {
        *self = value(self) / other;
    }
}

impl<U: Underlier> Default for PackedGf2<U> {
    ghost is_default = { λ x. U.number x.bits ≡ 0 };

    fn default() -> PackedGf2<U> {
        PackedGf2::new(U::ZERO)
    }
}

impl<U: Underlier> From<Gf2> for PackedGf2<U> {
    ghost from_gives = { λ x r. U.number r.bits ≡ bit_number x * (2 ^ U.BITS - 1) };

    fn from(bit: Gf2) -> PackedGf2<U> {
        PackedGf2::broadcast(bit)
    }
}
