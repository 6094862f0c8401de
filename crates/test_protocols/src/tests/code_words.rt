// Code words of messages of 1, 2, 4 and 8 elements at the rates 1 to 1/16, over a field of 8 bits, and of as many words at the rate 1/2: each
// growth refused in turn, and granted where there is memory. What the code word is the contract says.
use field_base::traits::TowerLevel;
use field_element::BinaryField8;
use linked_list_allocator::LocalHeap;
use protocols::extension::{encode, extend};
use std::alloc::{AllocError, Allocator, Global};
use test_elements::{Ending, Growing, Rest, is_refused_in_turn};

// How many elements the code word of a message of 2^levels elements has, up to 8 of them and a rate down to 1/16, or 0.
fn length_of<F: TowerLevel, A: Allocator + Copy>(
    alloc: A,
    message: &[F],
    levels: usize,
    expansion: usize,
) -> Result<usize, AllocError> {
    if levels > 3
        || expansion > 4
        || expansion + levels > F::bits()
        || message.len() != 1 << levels
    {
        return Ok(0);
    }
    Ok(extend(alloc, message, levels, expansion)?.len())
}

// A message of `count` bytes, which are 2^levels.
#[derive(Drop)]
struct Message {
    levels: usize,
    count: usize,
    expansion: usize,
    length: usize,
}

impl Growing for Message {
    fn run<'a>(&self, heap: &'a LocalHeap, rest: Rest<'a>) -> Result<Ending, AllocError> {
        let message = [BinaryField8::from_repr(0x53); 8];
        if self.count > 8 {
            return Ok(Ending::Wrong);
        }
        let length = length_of(heap, &message[..self.count], self.levels, self.expansion);
        drop(rest);
        Ok(match length {
            Ok(length) => Ending::of(true, length == self.length),
            Err(_) => Ending::Refused,
        })
    }
}

fn are_refused(alloc: Global) -> bool {
    for levels in 0..4usize {
        for expansion in 0..5usize {
            let message = Message {
                levels,
                count: 1 << levels,
                expansion,
                length: 1 << (levels + expansion),
            };
            if !is_refused_in_turn(alloc, &message, true) {
                return false;
            }
        }
    }
    true
}

// A message of `count` words, which are 2^levels.
#[derive(Drop)]
struct Words {
    levels: usize,
    count: usize,
}

impl Growing for Words {
    fn run<'a>(&self, heap: &'a LocalHeap, rest: Rest<'a>) -> Result<Ending, AllocError> {
        let message = [0x53; 8];
        if self.count > 8 || self.levels > 3 || self.count != 1 << self.levels {
            return Ok(Ending::Wrong);
        }
        let word = encode(heap, &message[..self.count], self.levels);
        drop(rest);
        Ok(match word {
            Ok(word) => Ending::of(true, word.len() == 2 * self.count),
            Err(_) => Ending::Refused,
        })
    }
}

#[test]
fn code_words_are_granted_or_refused(rt: HostRuntime) {
    assert!(rt; are_refused(rt.alloc()));
    for levels in 0..4usize {
        let words = Words {
            levels,
            count: 1 << levels,
        };
        assert!(rt; is_refused_in_turn(rt.alloc(), &words, true));
    }
}
