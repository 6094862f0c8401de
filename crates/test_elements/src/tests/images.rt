// Vectors of images of the tower in a field of polynomials: `from_tower_vec`, which has one body, of 0 to 257 elements for `Poly64`, drawn from
// the seed 31 plus their number. Each growth is refused in turn, nothing is left behind, and where there is memory the call succeeds. A call that
// refuses some lengths or some elements fails here.
use crate::{Ending, Growing, Rest, is_refused_in_turn, next_number};
use field_base::{FieldKernel, Unsigned};
use field_element::{Element, element_of_word};
use linked_list_allocator::LocalHeap;
use std::alloc::{AllocError, Global};
use std::marker::PhantomData;
use word_polynomial::{Modulus, Poly64Modulus, Polynomials};
use word_tower::{Bits64, Level, Tower};

/// `len` elements, those of the low bits of numbers that are drawn from the seed 31 + `len`.
fn drawn<R: Unsigned, K: FieldKernel<R>>(
    alloc: Global,
    len: usize,
) -> Result<Vec<Element<R, K>>, AllocError> {
    let mut state = (len as u64).wrapping_add(31);
    let mut elements = Vec::new(alloc);
    for _ in 0..len {
        elements.push(element_of_word(R::of_u128(next_number(&mut state))))?;
    }
    Ok(elements)
}

/// The images of `len` elements.
#[derive(Drop)]
struct Images<R, L, M> {
    alloc: Global,
    len: usize,
    kernel: PhantomData<(R, L, M)>,
}

impl<R: Unsigned, L: Level<R>, M: Modulus<R, L>> Growing for Images<R, L, M> {
    fn run<'a>(&self, heap: &'a LocalHeap, rest: Rest<'a>) -> Result<Ending, AllocError> {
        let elements = drawn::<R, Tower<L>>(self.alloc, self.len)?;
        let images = Element::<R, Polynomials<M, L>>::from_tower_vec(heap, elements.as_slice());
        drop(rest);
        Ok(Ending::of(images.is_ok(), true))
    }
}

#[test]
fn vectors_of_images_are_granted_or_refused(rt: HostRuntime) {
    for len in 0..258usize {
        let images: Images<u64, Bits64, Poly64Modulus> = Images {
            alloc: rt.alloc(),
            len,
            kernel: PhantomData,
        };
        assert!(rt;
            is_refused_in_turn(rt.alloc(), &images, len > 0),
            "{len} images"
        );
    }
}
