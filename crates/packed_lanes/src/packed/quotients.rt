// Quotients of packings, lane by lane.
ghost use Rattle.std.specs.Prelude.{◌≡◌, ◌≢◌, ◌<◌, ℕ, map, replicate, slice_index_or};
ghost use Rattle.packed_lanes.specs.Lanes.{lane_by_lane};

use crate::packed::maps::inverse_or_zero;
use crate::packed::{Packed, WiderField};
use field_base::traits::Field;
use std::ops::{Div, DivAssign};

impl<F: WiderField, const N: usize> Div<Packed<F, N>> for Packed<F, N> {
    type Output = Packed<F, N>;

    // No lane of the divisor is 0.
    ghost can_div = { λ x y. (k : ℕ) (d : F) → k < N → F.repr (slice_index_or y.lanes k d) ≢ 0 };

    ghost div_gives = { λ x y r. map F.repr x.lanes ≡ lane_by_lane F.product (map F.repr r.lanes) (map F.repr y.lanes) };

    #[inline]
    fn div(self, other: Packed<F, N>) -> Packed<F, N> {
        self.zip(other, quotient::<F>)
    }
}

impl<F: WiderField, const N: usize> DivAssign<Packed<F, N>> for Packed<F, N> {
    ghost can_div_assign = { λ x y. (k : ℕ) (d : F) → k < N → F.repr (slice_index_or y.lanes k d) ≢ 0 };

    ghost div_assign_gives = { λ x y r. map F.repr x.lanes ≡ lane_by_lane F.product (map F.repr r.lanes) (map F.repr y.lanes) };

    #[inline]
    fn div_assign(&mut self, other: Packed<F, N>) {
        *self = Packed { lanes: self.lanes } / other;
    }
}

impl<F: WiderField, const N: usize> Div<F> for Packed<F, N> {
    type Output = Packed<F, N>;

    ghost can_div = { λ x y. F.repr y ≢ 0 };

    ghost div_gives = { λ x y r. map F.repr x.lanes ≡ lane_by_lane F.product (map F.repr r.lanes) (map F.repr (replicate N y)) };

    #[inline]
    fn div(self, other: F) -> Packed<F, N> {
        let every: Packed<F, N> = Packed::broadcast(other);
        self / every
    }
}

impl<F: WiderField, const N: usize> DivAssign<F> for Packed<F, N> {
    ghost can_div_assign = { λ x y. F.repr y ≢ 0 };

    ghost div_assign_gives = { λ x y r. map F.repr x.lanes ≡ lane_by_lane F.product (map F.repr r.lanes) (map F.repr (replicate N y)) };

    #[inline]
    fn div_assign(&mut self, other: F) {
        let every: Packed<F, N> = Packed::broadcast(other);
        *self = Packed { lanes: self.lanes } / every;
    }
}

// The quotient of two elements, and 0 for a divisor that is 0.
#[inline]
fn quotient<F: Field>(x: F, y: F) -> F
    ensures { F.repr y ≢ 0 → F.repr x ≡ F.product (F.repr result) (F.repr y) }
{
    x * inverse_or_zero(y)
}
