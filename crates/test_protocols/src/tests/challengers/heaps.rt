// Each growth refused in turn, and success where there is memory. Initial states and seeds are drawn from the seed 61 plus their length,
// encoded elements from 67 plus that of the bytes before them, so that all bytes come as their lowest one: a call that refuses some
// lengths, some bytes or some elements fails here. What a refusal leaves the contracts say. The calls are
//
// - `observe_seed` of 0 to 257 bytes into a `Recorder`, and `encode` behind as many bytes, at fields of 16 and 128 bits;
// - each call of a challenger over `HashChallenger` from initial states of 0 to 257 bytes (`observe` of an element, of digests of bytes and
//   of words, of caps lent and given away, `observe_slice`, `sample_element`, `sample_bits`, uniform bits, `check_witness`, `try_clone` and
//   a sample of the copy), at fields of 16 and 128 bits;
// - `grind` of 1 to 8 bits over it from 16 initial states.
use super::asked::{Asked, Hashed, Row, Said, element, hashed};
use linked_list_allocator::LocalHeap;
use std::alloc::{AllocError, Allocator, Global};
use std::marker::PhantomData;
use test_elements::{Ending, Growing, Rest, fill_bytes, is_refused_in_turn, next_number};
use transcript_elements::{ByteLevel, TranscriptField};
use transcripts::{ChallengerError, Recorder};

/// A challenger over SHA-256 in a heap.
pub(crate) type InHeap<'a, F> = Hashed<F, &'a LocalHeap>;

// How a call of a challenger that had not failed ended.
fn ending_of<C: Asked>(alloc: Global, challenger: &mut C, row: &Row, rest: Rest<'_>) -> Ending {
    let said = challenger.answer(alloc, row);
    drop(rest);
    match said {
        Said::Number(_) => Ending::Granted,
        Said::Memory => Ending::Refused,
        _ => Ending::Wrong,
    }
}

// The first `len` bytes that are drawn from the seed 61 + `len`, at most 257, without room for more.
fn some_bytes<A: Allocator>(alloc: A, len: usize) -> Result<Vec<u8, A>, AllocError> {
    let mut bytes = [0; 257];
    fill_bytes(&mut bytes, (len as u64).wrapping_add(61));
    Vec::from_slice(alloc, &bytes[..len.min(257)])
}

// A call of a challenger whose initial state has `len` bytes.
#[derive(Drop)]
struct SingleCall<F> {
    alloc: Global,
    row: Row,
    len: usize,
    field: PhantomData<F>,
}

impl<F: ByteLevel> Growing for SingleCall<F> {
    fn run<'a>(&self, heap: &'a LocalHeap, rest: Rest<'a>) -> Result<Ending, AllocError> {
        let state = some_bytes(heap, self.len)?;
        let mut challenger: InHeap<'_, F> = hashed(state);
        Ok(ending_of(self.alloc, &mut challenger, &self.row, rest))
    }
}

// Whether the call takes memory, from an initial state of so many bytes that leaves no room: what is observed does, a copy does or
// what it samples, and a sample where a digest does not fit.
fn takes_memory(row: &Row, len: usize) -> bool {
    match row[0] {
        1 | 2 | 5 => len < 32,
        3 | 4 | 11 => row[1] > 0,
        _ => true,
    }
}

/// Whether the call of a row is refused in turn, from an initial state of so many bytes.
pub(crate) fn call_is_refused<F: ByteLevel>(alloc: Global, row: Row, len: usize) -> bool {
    let call: SingleCall<F> = SingleCall {
        alloc,
        row,
        len,
        field: PhantomData,
    };
    is_refused_in_turn(alloc, &call, takes_memory(&row, len))
}

// A seed of `len` bytes.
#[derive(Drop)]
struct Seed<F> {
    alloc: Global,
    len: usize,
    field: PhantomData<F>,
}

impl<F: TranscriptField> Growing for Seed<F> {
    fn run<'a>(&self, heap: &'a LocalHeap, rest: Rest<'a>) -> Result<Ending, AllocError> {
        let seed = some_bytes(self.alloc, self.len)?;
        let mut recorder: Recorder<F, &LocalHeap> = Recorder::new(heap);
        let answer = F::observe_seed(&mut recorder, seed.as_slice());
        drop(rest);
        Ok(match answer {
            Ok(()) => Ending::Granted,
            Err(ChallengerError::Memory) => Ending::Refused,
            Err(ChallengerError::Failed) => Ending::Wrong,
        })
    }
}

// The element of a number, which is encoded behind `len` bytes.
#[derive(Drop)]
struct Encoding<F> {
    len: usize,
    number: u128,
    field: PhantomData<F>,
}

impl<F: TranscriptField> Growing for Encoding<F> {
    fn run<'a>(&self, heap: &'a LocalHeap, rest: Rest<'a>) -> Result<Ending, AllocError> {
        let mut out = some_bytes(heap, self.len)?;
        let element: F = element(self.number);
        let is_granted = element.encode(&mut out).is_ok();
        drop(rest);
        Ok(Ending::of(is_granted, true))
    }
}

/// Whether a seed of so many bytes in a recorder, and an element that is encoded behind them, are refused in turn.
pub(crate) fn text_is_refused<F: TranscriptField>(alloc: Global, len: usize) -> bool {
    let seed: Seed<F> = Seed {
        alloc,
        len,
        field: PhantomData,
    };
    let mut state = (len as u64).wrapping_add(67);
    let encoding: Encoding<F> = Encoding {
        len,
        number: next_number(&mut state) << 8 | (len as u128 % 256),
        field: PhantomData,
    };
    is_refused_in_turn(alloc, &seed, true) && is_refused_in_turn(alloc, &encoding, true)
}
