// The harness of `test_elements`, on vectors of bytes, and the first numbers that are drawn.
use crate::{Ending, Growing, Rest, fill, fill_bytes, is_refused_in_turn, refusals_of};
use linked_list_allocator::LocalHeap;
use std::alloc::{AllocError, Allocator, Global};

// Pushes so many bytes. Where it `forgets`, it says that memory was refused whatever was.
#[derive(Drop)]
struct Pushes {
    count: u8,
    forgets: bool,
}

fn pushed<A: Allocator>(alloc: A, count: u8) -> Result<usize, AllocError> {
    let mut bytes = Vec::new(alloc);
    for byte in 0..count {
        bytes.push(byte)?;
    }
    Ok(bytes.len())
}

impl Growing for Pushes {
    fn run<'a>(&self, heap: &'a LocalHeap, rest: Rest<'a>) -> Result<Ending, AllocError> {
        let answer = pushed(heap, self.count);
        drop(rest);
        Ok(match answer {
            Ok(len) => Ending::of(!self.forgets, len == self.count as usize),
            Err(_) => Ending::Refused,
        })
    }
}

fn are_refused_in_turn(alloc: Global, count: u8) -> bool {
    is_refused_in_turn(
        alloc,
        &Pushes {
            count,
            forgets: false,
        },
        count > 0,
    )
}

fn forgetting(alloc: Global, count: u8) -> Result<Option<u16>, AllocError> {
    refusals_of(
        alloc,
        &Pushes {
            count,
            forgets: true,
        },
        100,
    )
}

#[test]
fn growths_are_refused_in_turn(rt: HostRuntime) {
    assert!(rt;
        are_refused_in_turn(rt.alloc(), 0)
            && are_refused_in_turn(rt.alloc(), 1)
            && are_refused_in_turn(rt.alloc(), 100)
            && forgetting(rt.alloc(), 1) == Ok(None)
    );
}

// The words that splitmix64 draws from the seed 1234567, as Rosetta Code lists them.
#[test]
fn numbers_are_drawn_from_a_seed(rt: HostRuntime) {
    let mut numbers = [0; 2];
    fill(&mut numbers, 1_234_567);
    let mut bytes = [0; 4];
    fill_bytes(&mut bytes, 1_234_567);
    assert!(rt;
        numbers[0] == 3_203_168_211_198_807_973 << 64 | 6_457_827_717_110_365_317
            && numbers[1] == 4_593_380_528_125_082_431 << 64 | 9_817_491_932_198_370_423
            && bytes == [0x59, 0x2c, 0x88, 0x3f]
    );
}
