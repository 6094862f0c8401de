// Tables of codes: `PreparedEncoder::new` takes their memory and fails only where that is refused, in heaps with room for 0, 16, 32, ..
// bytes, until one grants it.
use super::code_of;
use crate::{Ending, Growing, Rest, is_refused_in_turn};
use linked_list_allocator::LocalHeap;
use reed_solomon::PreparedEncoder;
use std::alloc::AllocError;

// The tables of a code of so many shards.
#[derive(Drop)]
struct Tables {
    data_shards: usize,
    parity_shards: usize,
}

impl Growing for Tables {
    fn run<'a>(&self, heap: &'a LocalHeap, rest: Rest<'a>) -> Result<Ending, AllocError> {
        let code = match code_of(self.data_shards, self.parity_shards) {
            Some(code) => code,
            None => return Ok(Ending::Wrong),
        };
        let is_granted = PreparedEncoder::new(&code, heap).is_ok();
        drop(rest);
        Ok(Ending::of(is_granted, true))
    }
}

// Codes of which a group of four rows is not full, is full, and has others behind it, with one shard of data and with many.
static CODES: [(usize, usize); 9] = [
    (1, 1),
    (1, 4),
    (2, 5),
    (3, 2),
    (10, 4),
    (17, 3),
    (16, 9),
    (1, 255),
    (60, 13),
];

#[test]
fn tables_are_granted_or_refused(rt: HostRuntime) {
    for place in 0..CODES.len() {
        let (data_shards, parity_shards) = CODES[place];
        let tables = Tables {
            data_shards,
            parity_shards,
        };
        assert!(rt;
            is_refused_in_turn(rt.alloc(), &tables, true),
            "code {place}"
        );
    }
}
