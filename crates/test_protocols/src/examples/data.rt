// Elements as data in generic code, by one bound: as keys of a hash map, as text, and as bytes and back.
use binary_field::{DataField, Poly64, into_byte_stream};
use std::alloc::{AllocError, Allocator};
use std::collections::HashMap;
use std::test::Fail;

/// How many different elements there are, if the bytes of each give it back.
fn count_different<F: DataField, A: Allocator + Clone>(
    alloc: A,
    elements: &[F],
) -> Result<Option<usize>, AllocError> {
    let mut seen = HashMap::new(alloc);
    for element in elements {
        let bytes = into_byte_stream(std::iter::once(*element));
        if F::from_le_byte_iter(bytes) != Some(*element) {
            return Ok(None);
        }
        seen.insert(*element, ())?;
    }
    Ok(Some(seen.len()))
}

#[test]
fn elements_are_data(rt: HostRuntime) -> Result<(), Fail> {
    let elements = [Poly64::new(1), Poly64::new(7), Poly64::new(1)];
    assert!(rt; count_different(rt.alloc(), &elements)? == Some(2));
    Ok(())
}
