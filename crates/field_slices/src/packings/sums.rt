// The sum of the lanes of a packing.
ghost use Rattle.std.specs.Prelude.{◌≡◌};
ghost use Rattle.field_base.specs.Powers.{sum_of};
ghost use Rattle.packed_lanes.specs.Packed.{lanes_of};

use packed_lanes::{Packed, PackedValue, WiderField};

/// The sum of the lanes of a packing; that of no lanes is 0.
pub fn sum_of_lanes<F: WiderField, const N: usize>(packing: Packed<F, N>) -> F
    ensures { F.repr result ≡ sum_of F.repr (lanes_of packing) }
{
    let mut lanes = [F::ZERO; N];
    packing.copy_to_slice(&mut lanes);
    lanes.iter().copied().sum()
}
