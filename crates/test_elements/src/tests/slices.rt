// Slices of elements, and slices as packings. `batch_multiplicative_inverse`, `powers_vec`, `shifted_powers_vec` and `eq_poly` of 32
// elements of GF(2), each granted in a heap with room, and refused in one without; nothing is left behind. `pack_slice` and
// `packed_powers_vec` of 0 to 9 values, each growth refused in turn. Each has one body for every field.
use crate::{Ending, Growing, Rest, is_refused_in_turn};
use field_base::Gf2;
use field_base::traits::PrimeCharacteristicRing;
use field_element::Ghash128;
use field_slices::{
    batch_multiplicative_inverse, eq_poly, pack_slice, packed_powers_vec, powers_vec,
    shifted_powers_vec,
};
use linked_list_allocator::LocalHeap;
use std::alloc::{AllocError, Allocator, Global};
use std::test::Fail;

/// Whether every call that takes memory is granted it, or every one refused.
fn all_are<A: Allocator>(alloc: &A, granted: bool) -> bool {
    let one = Gf2::ONE;
    batch_multiplicative_inverse(alloc, &[one; 32]).is_ok() == granted
        && eq_poly(alloc, &[one; 5]).is_ok() == granted
        && powers_vec(alloc, one, 32).is_ok() == granted
        && shifted_powers_vec(alloc, one, one, 32).is_ok() == granted
}

#[test]
fn memory_is_granted_or_refused(rt: HostRuntime) -> Result<(), Fail> {
    let large = LocalHeap::new(rt.alloc(), 1024)?;
    let small = LocalHeap::new(rt.alloc(), 16)?;
    assert!(rt; all_are(&large, true) && all_are(&small, false) && large.used() == 0);
    Ok(())
}

/// So many values in packings of three lanes, and as many packings of powers.
#[derive(Drop)]
struct Packs {
    len: usize,
}

impl Growing for Packs {
    fn run<'a>(&self, heap: &'a LocalHeap, rest: Rest<'a>) -> Result<Ending, AllocError> {
        let one = Ghash128::new(1);
        let values = Ghash128::zero_vec(heap, self.len)?;
        let packed = pack_slice::<Ghash128, 3, &'a LocalHeap>(heap, values.as_slice());
        let powers = packed_powers_vec::<Ghash128, 3, &'a LocalHeap>(heap, one, one, self.len);
        drop(rest);
        Ok(Ending::of(packed.is_ok() && powers.is_ok(), true))
    }
}

#[test]
fn packings_are_granted_or_refused(rt: HostRuntime) {
    for len in 0..10usize {
        assert!(rt;
            is_refused_in_turn(rt.alloc(), &Packs { len }, len > 0),
            "{len} values"
        );
    }
}
