// Powers of an element in the lanes of packings.
ghost use Rattle.std.specs.Prelude.{◌≡◌, ◌*◌, length, map, IfOk};
ghost use Rattle.std.specs.List.{flat_map, range_with_len};
ghost use Rattle.field_base.specs.Powers.{power};
ghost use Rattle.packed_lanes.specs.Packed.{lanes_of};

use field_base::traits::PrimeCharacteristicRing;
use packed_lanes::{Packed, PackedValue, WiderField};
use std::alloc::{AllocError, Allocator};

/// The packing of `first`, `first` `base`, `first` `base`², ..: lane j has `first` times the power j of `base`.
pub fn packed_powers<F: WiderField, const N: usize>(base: F, first: F) -> Packed<F, N>
    ensures { map F.repr (lanes_of result)
        ≡ map (λ j. F.product (F.repr first) (power F.unit F.product (F.repr base) j)) (range_with_len 0 N) }
{
    let mut packing = Packed::ZERO;
    let mut current = first;
    for lane in 0..N {
        packing.set_lane(lane, current);
        current = current * base;
    }
    packing
}

/// `count` packings of `first`, `first` `base`, `first` `base`², ..: lane j of packing i has `first` times the power N i + j of
/// `base`. Each packing is the one before times the power N. It fails only where the allocator refuses.
pub fn packed_powers_vec<F: WiderField, const N: usize, A: Allocator>(
    alloc: A,
    base: F,
    first: F,
    count: usize,
) -> Result<Vec<Packed<F, N>, A>, AllocError>
    ensures count { IfOk result (λ packings. length packings.items ≡ count) }
    ensures powers { IfOk result (λ packings. map F.repr (flat_map lanes_of packings.items)
        ≡ map (λ i. F.product (F.repr first) (power F.unit F.product (F.repr base) i)) (range_with_len 0 (count * N))) }
{
    let step = base.exp_u64(N as u64);
    let mut packings = Vec::with_capacity(alloc, count)?;
    let mut current = packed_powers(base, first);
    for _ in 0..count {
        packings.push(current)?;
        current = current * step;
    }
    Ok(packings)
}
