// The operators of packings, and sums and products of many.
ghost use Rattle.std.specs.Prelude.{◌≡◌, bit_xor, map, replicate};
ghost use Rattle.field_base.specs.Chunks.{joined};
ghost use Rattle.packed_lanes.specs.Lanes.{lane_by_lane, lane_product};
ghost use Rattle.field_base.specs.Powers.{product_of, sum_of};

use crate::packed::{Laned, Packed};
use field_base::traits::{product_of_items, sum_of_items};
use std::iter::{Product, Sum};
use std::ops::{AddAssign, MulAssign, Neg, Sub, SubAssign};

impl<F: Laned, const N: usize> AddAssign<Packed<F, N>> for Packed<F, N> {
    ghost add_assign_gives = { λ x y r. map F.repr r.lanes ≡ lane_by_lane bit_xor (map F.repr x.lanes) (map F.repr y.lanes) };

    #[inline]
    fn add_assign(&mut self, other: Packed<F, N>) {
        *self = Packed { lanes: self.lanes } + other;
    }
}

impl<F: Laned, const N: usize> Sub<Packed<F, N>> for Packed<F, N> {
    type Output = Packed<F, N>;

    ghost sub_gives = { λ x y r. map F.repr r.lanes ≡ lane_by_lane bit_xor (map F.repr x.lanes) (map F.repr y.lanes) };

    #[inline]
    fn sub(self, other: Packed<F, N>) -> Packed<F, N> {
        self + other
    }
}

impl<F: Laned, const N: usize> SubAssign<Packed<F, N>> for Packed<F, N> {
    ghost sub_assign_gives = { λ x y r. map F.repr r.lanes ≡ lane_by_lane bit_xor (map F.repr x.lanes) (map F.repr y.lanes) };

    #[inline]
    fn sub_assign(&mut self, other: Packed<F, N>) {
        *self = Packed { lanes: self.lanes } + other;
    }
}

impl<F: Laned, const N: usize> MulAssign<Packed<F, N>> for Packed<F, N> {
    ghost mul_assign_gives = { λ x y r. map F.repr r.lanes ≡ lane_by_lane F.product (map F.repr x.lanes) (map F.repr y.lanes) };

    #[inline]
    fn mul_assign(&mut self, other: Packed<F, N>) {
        *self = Packed { lanes: self.lanes } * other;
    }
}

impl<F: Copy, const N: usize> Neg for Packed<F, N> {
    type Output = Packed<F, N>;

    ghost neg_gives = { λ x r. r.lanes ≡ x.lanes };

    #[inline]
    fn neg(self) -> Packed<F, N> {
        self
    }
}

impl<F: Laned, const N: usize> Default for Packed<F, N> {
    ghost is_default = { λ x. map F.repr x.lanes ≡ replicate N 0 };

    fn default() -> Packed<F, N> {
        Packed::broadcast(F::ZERO_LANE)
    }
}

impl<F: Laned, const N: usize> Sum<Packed<F, N>> for Packed<F, N> {
    ghost use Rattle.packed_lanes.specs.Packed.{IsSumOfPackings};

    ghost sum_gives = { λ xs r. IsSumOfPackings F.width F.repr xs r };

    fn sum<I: Iterator<Item = Packed<F, N>>>(iter: I) -> Packed<F, N> {
        sum_of_items(iter, Packed::broadcast(F::ZERO_LANE))
    }
}

impl<F: Laned, const N: usize> Product<Packed<F, N>> for Packed<F, N> {
    ghost use Rattle.packed_lanes.specs.Packed.{IsProductOfPackings};

    ghost product_gives = { λ xs r. IsProductOfPackings F.width F.repr F.unit F.product xs r };

    fn product<I: Iterator<Item = Packed<F, N>>>(iter: I) -> Packed<F, N> {
        product_of_items(iter, Packed::broadcast(F::ONE_LANE))
    }
}
