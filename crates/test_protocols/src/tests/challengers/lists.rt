// Lists of 0 to 257 calls: the reserve of `run_calls` and each growth of a call are refused in turn, and the list is granted where there is
// memory. What a list replies, also one that is refused, the contracts say; what the calls return is one of the scripts.
ghost use Rattle.std.specs.Prelude.{All, IfOk};
ghost use Rattle.transcript_elements.specs.Calls.{MayCall};

use super::asked::{Row, element, hashed};
use super::heaps::InHeap;
use super::many_calls::CALLS;
use linked_list_allocator::LocalHeap;
use std::alloc::{AllocError, Global};
use std::marker::PhantomData;
use test_elements::{Ending, Growing, Rest, is_refused_in_turn};
use transcript_elements::{ByteLevel, Call, run_calls};
use transcripts::ChallengerError;

// The call of a row.
fn call_of<F: ByteLevel>(row: &Row) -> Call<F>
    ensures { MayCall result }
{
    let bits = (row[1] % 64) as usize;
    let operand = element(row[2]);
    match row[0] {
        0 => Call::Observe(operand),
        1 => Call::Sample,
        2 => Call::SampleBits(bits),
        _ => Call::CheckWitness(bits, operand),
    }
}

// The calls of rows.
fn calls_of_rows<F: ByteLevel>(alloc: Global, rows: &[Row]) -> Result<Vec<Call<F>>, AllocError>
    ensures { IfOk result (λ calls. All MayCall calls.items) }
{
    let mut calls = Vec::new(alloc);
    'rows: for place in 0..rows.len() {
        calls.push(call_of(&rows[place]))?;
    }
    Ok(calls)
}

// The first so many calls.
#[derive(Drop)]
struct List<F> {
    alloc: Global,
    len: usize,
    field: PhantomData<F>,
}

// What is refused is the reserve or a call.
impl<F: ByteLevel> Growing for List<F> {
    fn run<'a>(&self, heap: &'a LocalHeap, rest: Rest<'a>) -> Result<Ending, AllocError> {
        let calls = calls_of_rows::<F>(self.alloc, &CALLS[..self.len.min(257)])?;
        let mut challenger: InHeap<'_, F> = hashed(Vec::new(heap));
        let mut replies = Vec::new(heap);
        let answer = run_calls(&mut challenger, calls.as_slice(), &mut replies);
        drop(rest);
        Ok(match answer {
            Ok(()) => Ending::of(true, replies.len() == self.len),
            Err(error) => Ending::of(false, error == ChallengerError::Memory),
        })
    }
}

/// Whether the first so many calls are refused in turn.
pub(crate) fn list_is_refused<F: ByteLevel>(alloc: Global, len: usize) -> bool {
    let list: List<F> = List {
        alloc,
        len,
        field: PhantomData,
    };
    is_refused_in_turn(alloc, &list, len > 0)
}
