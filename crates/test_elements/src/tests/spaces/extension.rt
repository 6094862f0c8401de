// Extensions of a field: the text that names one, granted where there is memory and refused in a heap without room, with nothing left
// behind.
use field_base::traits::Field;
use field_space::AlgebraIdentity;
use linked_list_allocator::LocalHeap;
use std::alloc::{AllocError, Allocator, Global};

fn is_text<A: Allocator>(text: Result<Vec<u8, A>, AllocError>, want: &str) -> bool {
    match text {
        Ok(text) => text.as_slice() == want.as_bytes(),
        Err(_) => false,
    }
}

/// Whether the algebra has this text, and is refused it where there is no room.
pub(crate) fn has_text<F: Field, E: AlgebraIdentity<F>>(alloc: Global, want: &str) -> bool {
    match LocalHeap::new(alloc, 16) {
        Ok(small) => {
            is_text(E::algebra_id(alloc), want)
                && E::algebra_id(&small).is_err()
                && small.used() == 0
        }
        Err(_) => false,
    }
}
