// `flatten_to_base` and `reconstitute_from_base` of the last 0 to 257 of elements that are drawn from the seed 23, where there is memory,
// and refused where there is not, in heaps of 16, 32, 64, .. bytes: a vector grows to twice its length at least, so that each growth is the
// first to be refused in one of them. Nothing is left behind. A call that refuses some lengths, some elements or some contents fails here.
use field_base::traits::PrimeCharacteristicRing;
use field_space::BasedVectorSpace;
use linked_list_allocator::LocalHeap;
use std::alloc::Global;

/// Bytes of heaps. The first has no room for one element, and the last has room for all. Each has twice the room of the one before,
/// and a vector grows to twice its length at least: so each growth is the first to be refused in one.
static ROOMS: [usize; 13] = [
    16, 32, 64, 128, 256, 512, 1024, 2048, 4096, 8192, 16384, 32768, 65536,
];

/// Whether a call may be granted, or refused, in a heap of so many bytes.
fn is_due(is_granted: bool, room: usize, takes_memory: bool) -> bool {
    if is_granted {
        room > 16 || !takes_memory
    } else {
        room < 65536 && takes_memory
    }
}

/// Whether both ways end as they may in a heap of so many bytes, which gets all of them back.
fn both_are_due<F: PrimeCharacteristicRing, E: BasedVectorSpace<F>>(
    alloc: Global,
    room: usize,
    elements: &[E],
    coefficients: &[F],
) -> bool {
    if E::DIMENSION == 0 || coefficients.len() % E::DIMENSION != 0 {
        return false;
    }
    match LocalHeap::new(alloc, room) {
        Ok(heap) => {
            let takes_memory = elements.len() > 0;
            let there = E::flatten_to_base(&heap, elements).is_ok();
            let back = E::reconstitute_from_base(&heap, coefficients).is_ok();
            is_due(there, room, takes_memory)
                && is_due(back, room, takes_memory)
                && heap.used() == 0
        }
        Err(_) => false,
    }
}

/// Whether that holds in each heap, and of the elements' coefficients.
fn each_is_due<F: PrimeCharacteristicRing, E: BasedVectorSpace<F>>(
    alloc: Global,
    elements: &[E],
) -> bool {
    match E::flatten_to_base(alloc, elements) {
        Ok(flat) => {
            for room in ROOMS.iter() {
                if !both_are_due::<F, E>(alloc, *room, elements, flat.as_slice()) {
                    return false;
                }
            }
            true
        }
        Err(_) => false,
    }
}

/// Whether that holds of the last 0 to 257 of these elements, so that each length begins with another.
pub(crate) fn vectors_are_due<F: PrimeCharacteristicRing, E: BasedVectorSpace<F>>(
    alloc: Global,
    elements: &[E],
) -> bool {
    for len in 0..258usize {
        if len > elements.len() || !each_is_due::<F, E>(alloc, &elements[elements.len() - len..]) {
            return false;
        }
    }
    true
}
