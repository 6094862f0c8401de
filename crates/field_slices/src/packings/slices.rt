// Slices of elements as packings and back, by copy.
ghost use Rattle.std.specs.Prelude.{◌≡◌, ◌*◌, ◌/◌, ◌++◌, length, IfOk};
ghost use Rattle.std.specs.List.{flat_map};
ghost use Rattle.packed_lanes.specs.Packed.{lanes_of};

use packed_lanes::{Packed, PackedValue, WiderField};
use std::alloc::{AllocError, Allocator};

/// The whole packings of a slice, and its suffix that fills none: lane j of packing i is value N i + j, and the suffix is what
/// stands behind the last packing. Packings of no lanes are none, and the suffix is the slice. It fails only where the allocator
/// refuses.
pub fn pack_slice<F: WiderField, const N: usize, A: Allocator>(
    alloc: A,
    values: &[F],
) -> Result<(Vec<Packed<F, N>, A>, &[F]), AllocError>
    ensures values { IfOk result (λ packed. flat_map lanes_of packed.0.items ++ packed.1.now ≡ values.now) }
    ensures count { IfOk result (λ packed. length packed.0.items ≡ length values.now / N) }
{
    let Some(count) = values.len().checked_div(N) else {
        return Ok((Vec::new(alloc), values));
    };
    let mut packings = Vec::with_capacity(alloc, count)?;
    let mut rest = values;
    'packings: while rest.len() >= N {
        let (front, others) = rest.split_at(N);
        packings.push(Packed::from_slice(front))?;
        rest = others;
    }
    Ok((packings, rest))
}

/// Writes the values to the lanes of the packings: lane j of packing i is value N i + j. There have to be as many values as the
/// packings have lanes. It takes no memory.
pub fn pack_slice_into<F: WiderField, const N: usize>(values: &[F], packings: &mut [Packed<F, N>])
    requires { length values.now ≡ length packings.old * N }
    ensures { flat_map lanes_of packings.new ≡ values.now }
{
    let mut rest = values;
    for place in 0..packings.len() {
        let (front, others) = rest.split_at(N);
        packings[place] = Packed::from_slice(front);
        rest = others;
    }
}

/// Writes the lanes of the packings to the values: value N i + j is lane j of packing i. There have to be as many values as the
/// packings have lanes. It takes no memory.
pub fn unpack_slice<F: WiderField, const N: usize>(packings: &[Packed<F, N>], values: &mut [F])
    requires { length values.old ≡ length packings.now * N }
    ensures { values.new ≡ flat_map lanes_of packings.now }
{
    let mut start = 0;
    for packing in packings {
        packing.copy_to_slice(&mut values[start..start + N]);
        start += N;
    }
}
