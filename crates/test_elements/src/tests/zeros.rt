// Vectors of zeros. `zero_vec` has one body for every ring; it is tried over GF(2), at each length from 0 to 257: each growth is refused in turn,
// nothing is left behind, and the call succeeds where there is memory.
use crate::{Ending, Growing, Rest, is_refused_in_turn};
use field_base::Gf2;
use field_base::traits::PrimeCharacteristicRing;
use linked_list_allocator::LocalHeap;
use std::alloc::AllocError;

/// So many zeros.
#[derive(Drop)]
struct Zeros {
    len: usize,
}

impl Growing for Zeros {
    fn run<'a>(&self, heap: &'a LocalHeap, rest: Rest<'a>) -> Result<Ending, AllocError> {
        let zeros = Gf2::zero_vec(heap, self.len);
        drop(rest);
        Ok(Ending::of(zeros.is_ok(), true))
    }
}

#[test]
fn zeros_are_granted_or_refused(rt: HostRuntime) {
    for len in 0..258usize {
        assert!(rt;
            is_refused_in_turn(rt.alloc(), &Zeros { len }, len > 0),
            "{len} zeros"
        );
    }
}
