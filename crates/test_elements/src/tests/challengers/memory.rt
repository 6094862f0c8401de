// Memory that is refused to a challenger over a hash function: each growth of `observe_byte`, `sample_byte` and `try_clone` in turn, from
// initial states of each length from 0 to 257, with the output empty and in the middle of a digest. What a refusal leaves the contracts
// say.
use crate::{Ending, Growing, Rest, refusals_of};
use linked_list_allocator::LocalHeap;
use std::alloc::{AllocError, Allocator, Global};
use transcripts::{ByteChallenger, HashChallenger, Sha256Hasher};

fn challenger_over<A: Allocator + Clone>(
    alloc: A,
    len: usize,
) -> Result<HashChallenger<Sha256Hasher, A>, AllocError> {
    let mut state = Vec::with_capacity(alloc, len)?;
    for place in 0..len {
        state.push((place % 256) as u8)?;
    }
    Ok(HashChallenger::new(state, Sha256Hasher))
}

/// A call of a byte challenger.
#[derive(Clone, Copy, PartialEq)]
enum ByteCall {
    Observe,
    Sample,
    Copy,
}

static BYTE_CALLS: [ByteCall; 3] = [ByteCall::Observe, ByteCall::Sample, ByteCall::Copy];

// Makes the call, and says whether it was granted.
fn is_granted<C: ByteChallenger>(challenger: &mut C, call: ByteCall) -> bool {
    match call {
        ByteCall::Observe => challenger.observe_byte(7).is_ok(),
        ByteCall::Sample => challenger.sample_byte().is_ok(),
        ByteCall::Copy => challenger.try_clone().is_ok(),
    }
}

// A call of a challenger whose initial state has `len` bytes and no room for more.
#[derive(Drop)]
struct InTurn {
    call: ByteCall,
    len: usize,
    is_within_a_digest: bool,
}

impl InTurn {
    // Whether the call is refused in some heap if it takes memory, and in none if not: an observed byte needs room, a sample room for
    // a digest, a copy room for the input. In the middle of a digest, which has grown, only a sample is sure to need none.
    fn may_be_refused(&self, refusals: u16) -> bool {
        let takes_memory = match self.call {
            ByteCall::Sample => self.len < 32 && !self.is_within_a_digest,
            _ if self.is_within_a_digest => return true,
            ByteCall::Observe => true,
            ByteCall::Copy => self.len > 0,
        };
        takes_memory == (refusals > 0)
    }
}

impl Growing for InTurn {
    fn run<'a>(&self, heap: &'a LocalHeap, rest: Rest<'a>) -> Result<Ending, AllocError> {
        let mut challenger = challenger_over(heap, self.len)?;
        if self.is_within_a_digest {
            challenger.sample_byte()?;
        }
        let is_granted = is_granted(&mut challenger, self.call);
        drop(rest);
        Ok(Ending::of(is_granted, true))
    }
}

fn is_right(alloc: Global, call: ByteCall, len: usize, is_within_a_digest: bool) -> bool {
    let in_turn = InTurn {
        call,
        len,
        is_within_a_digest,
    };
    match refusals_of(alloc, &in_turn, 4096) {
        Ok(Some(refusals)) => in_turn.may_be_refused(refusals),
        _ => false,
    }
}

#[test]
fn calls_are_granted_or_refused(rt: HostRuntime) {
    for len in 0..258usize {
        for call in &BYTE_CALLS {
            assert!(rt;
                is_right(rt.alloc(), *call, len, false) && is_right(rt.alloc(), *call, len, true),
                "{len} bytes"
            );
        }
    }
}
