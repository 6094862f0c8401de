// The lanes of packings: which lane is which.
ghost use Rattle.std.specs.Prelude.{refl};

use crate::packed::{Laned, Packed, WiderField};
use crate::{PackedField, PackedValue};

impl<F: Laned, const N: usize> PackedValue for Packed<F, N> {
    ghost use Rattle.packed_lanes.specs.Packed.{lanes_of};
    ghost use Rattle.packed_lanes.specs.lemmas.Packed.{same_packed};

    type Value = F;

    const WIDTH: usize = N;

    ghost WIDTH = { N };

    ghost lanes = { lanes_of };

    #[inline]
    fn from_slice(slice: &[F]) -> Packed<F, N> {
        let mut lanes = [F::ZERO_LANE; N];
        lanes.copy_from_slice(slice);
        Packed { lanes }
    }

    #[inline]
    fn as_slice(&self) -> &[F] {
        &self.lanes
    }

    #[inline]
    fn copy_to_slice(&self, slice: &mut [F]) {
        slice.copy_from_slice(&self.lanes);
    }

    #[inline]
    fn set_lane(&mut self, lane: usize, value: F) {
        self.lanes[lane] = value;
    }

    ghost width_law = { λ x. x.long };

    ghost same_lanes_law = { same_packed };
}

impl<F: WiderField, const N: usize> PackedField for Packed<F, N> {
    type Scalar = F;

    ghost lanes_repr_law = { λ x. refl };

    ghost lanes_width_law = { refl };

    ghost lanes_unit_law = { refl };

    ghost lanes_product_law = { λ a b. refl };

    ghost lanes_image_law = { λ a fits. refl };
}
