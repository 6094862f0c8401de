// Rows and packed bits that are taken apart into vectors: `split_copied`, `narrow_copied` and `bytes_copied` of 0 to 257 rows of 16 bits,
// drawn from the seed 29 plus their number; each has one body for all rows. Each growth is refused in turn, nothing is left
// behind, and where there is memory the call succeeds. A call that refuses some lengths, some rows or some contents fails here.
use crate::{Ending, Growing, Rest, is_refused_in_turn, next_number};
use bits_packed::PackedGf2;
use linked_list_allocator::LocalHeap;
use packed_lanes::Divisible;
use std::alloc::{AllocError, Global};
use std::test::Fail;

/// A call that takes rows apart.
#[derive(Clone, Copy, PartialEq)]
enum Cut {
    Split,
    Narrow,
    Bytes,
}

// `len` rows of the seed 29 + `len`, and the same rows as packed bits.
fn drawn(alloc: Global, len: usize) -> Result<(Vec<u16>, Vec<PackedGf2<u16>>), AllocError> {
    let mut state = (len as u64).wrapping_add(29);
    let mut rows = Vec::new(alloc);
    let mut packed = Vec::new(alloc);
    for _ in 0..len {
        let row = (next_number(&mut state) % (1 << 16)) as u16;
        rows.push(row)?;
        packed.push(PackedGf2::new(row))?;
    }
    Ok((rows, packed))
}

/// Rows, as such and as packed bits, that are taken apart.
#[derive(Drop)]
struct Rows {
    cut: Cut,
    rows: Vec<u16>,
    packed: Vec<PackedGf2<u16>>,
}

impl Growing for Rows {
    fn run<'a>(&self, heap: &'a LocalHeap, rest: Rest<'a>) -> Result<Ending, AllocError> {
        let packed = self.packed.as_slice();
        let is_granted = match self.cut {
            Cut::Split => <u16 as Divisible<u8>>::split_copied(heap, self.rows.as_slice()).is_ok(),
            Cut::Narrow => PackedGf2::<u16>::narrow_copied::<_, u8>(heap, packed).is_ok(),
            Cut::Bytes => PackedGf2::bytes_copied(heap, packed).is_ok(),
        };
        drop(rest);
        Ok(Ending::of(is_granted, true))
    }
}

#[test]
fn parts_are_granted_or_refused(rt: HostRuntime) -> Result<(), Fail> {
    for len in 0..258usize {
        for cut in [Cut::Split, Cut::Narrow, Cut::Bytes] {
            let (rows, packed) = drawn(rt.alloc(), len)?;
            let cutting = Rows { cut, rows, packed };
            assert!(rt;
                is_refused_in_turn(rt.alloc(), &cutting, len > 0),
                "{len} rows"
            );
        }
    }
    Ok(())
}
