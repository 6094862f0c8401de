// Powers of an element, as a vector.
ghost use Rattle.std.specs.Prelude.{◌≡◌, map, IfOk};
ghost use Rattle.std.specs.List.{range_with_len};
ghost use Rattle.field_base.specs.Powers.{power};

use field_base::traits::PrimeCharacteristicRing;
use std::alloc::{AllocError, Allocator};

/// The first `count` powers of `base`: 1, `base`, `base`², .. It fails only where the allocator refuses.
pub fn powers_vec<R: PrimeCharacteristicRing, A: Allocator>(
    alloc: A,
    base: R,
    count: usize,
) -> Result<Vec<R, A>, AllocError>
    ensures { IfOk result (λ powers. map R.repr powers.items
        ≡ map (λ i. power R.unit R.product (R.repr base) i) (range_with_len 0 count)) }
{
    shifted_powers_vec(alloc, base, R::ONE, count)
}

/// The first `count` powers of `base`, each times `first`: `first`, `first` `base`, `first` `base`², .. It fails only where the
/// allocator refuses.
pub fn shifted_powers_vec<R: PrimeCharacteristicRing, A: Allocator>(
    alloc: A,
    base: R,
    first: R,
    count: usize,
) -> Result<Vec<R, A>, AllocError>
    ensures { IfOk result (λ powers. map R.repr powers.items
        ≡ map (λ i. R.product (R.repr first) (power R.unit R.product (R.repr base) i)) (range_with_len 0 count)) }
{
    let mut powers = Vec::with_capacity(alloc, count)?;
    let mut current = first;
    for _ in 0..count {
        powers.push(current)?;
        current = current * base;
    }
    Ok(powers)
}
