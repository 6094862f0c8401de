// Maps of each lane: squarings and inverses.
ghost use Rattle.std.specs.Prelude.{◌≡◌, ◌<◌, ℕ, map, slice_index_or};
ghost use Rattle.field_base.specs.Powers.{repeated_square};
ghost use Rattle.field_base.specs.Field.{IsInverseOrZero};

use crate::packed::each::map_lanes;
use crate::packed::{Packed, WiderField};
use field_base::traits::Field;

impl<F: WiderField, const N: usize> Packed<F, N> {
    ghost use Rattle.packed_lanes.specs.Packed.{InvertsLanes, lanes_of};

    /// Each lane squared `count` times.
    pub fn frobenius(self, count: usize) -> Packed<F, N>
        ensures { map F.repr (lanes_of result) ≡ map (repeated_square F.unit F.product count) (map F.repr (lanes_of self)) }
    {
        let mut lanes = self.lanes;
        map_lanes(
            lanes.as_mut_slice(),
            |lane: F| -> F
                ensures { F.repr result ≡ repeated_square F.unit F.product count (F.repr lane) }
            { lane.exp_power_of_2(count) },
        );
        Packed { lanes }
    }

    /// The inverse of each lane, and 0 where a lane is 0.
    pub fn invert_or_zero(self) -> Packed<F, N>
        ensures { InvertsLanes F.repr F.product self result }
    {
        let mut lanes = self.lanes;
        map_lanes(lanes.as_mut_slice(), inverse_or_zero::<F>);
        Packed { lanes }
    }
}

// The inverse of an element, and 0 for 0.
#[inline]
pub(crate) fn inverse_or_zero<F: Field>(x: F) -> F
    ensures { IsInverseOrZero F.product (F.repr x) (F.repr result) }
{
    match x.try_inverse() {
        Some(inverse) => inverse,
        None => F::ZERO,
    }
}
