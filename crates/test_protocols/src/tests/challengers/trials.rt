// What is tried of fields. To show that a field has the laws of the bound of transcripts takes the check longer than a trial does, so
// that all of them are handed over here, in one function, by their kernels. A trial is one row, and loops stand here too.
use super::asked::{EVERY_CALL, Row, follows, hashed};
use super::grinding::LEAST_WITNESSES;
use super::heaps::{call_is_refused, text_is_refused};
use super::lists::list_is_refused;
use super::many_calls::CALLS;
use super::partners::{
    GRANTED_CALLS, Partner, REFUSED_CALLS, SEARCHES, granted_call, is_answered, refused_call,
    refused_copy, search,
};
use super::scripts::SCRIPTS;
use super::vectors::vectors_are_taken;
use field_bytes::ShortWord;
use field_element::{Element, Poly64, Poly192};
use std::alloc::Global;
use transcript_elements::{ByteLevel, TranscriptField, TranscriptKernel};
use word_tower::{Bits16, Bits32, Bits128, Tower};

/// A trial of a field. Elements stand by their representations.
#[derive(Clone, Copy)]
enum Trial<'a> {
    /// Calls over SHA-256 from an initial state.
    Script(&'a [u8], &'a [Row]),
    /// A double that refuses, or samples one byte always.
    Partner(&'a Partner),
    /// A call of a challenger in heaps that are full, from an initial state of so many bytes.
    Call(&'a Row, usize),
    /// A list of so many calls in heaps that are full.
    List(usize),
    /// A seed of so many bytes, and an element that is encoded behind them, in heaps that are full.
    Text(usize),
}

fn script_is_followed<F: ByteLevel>(alloc: Global, state: &[u8], rows: &[Row]) -> bool {
    match Vec::from_slice(alloc, state) {
        Ok(state) => {
            let mut challenger = hashed::<F, _>(state);
            follows(alloc, &mut challenger, rows)
        }
        Err(_) => false,
    }
}

fn succeeds<F: TranscriptField>(alloc: Global, trial: Trial<'_>) -> bool {
    match trial {
        Trial::Script(state, rows) => script_is_followed::<F>(alloc, state, rows),
        Trial::Partner(partner) => is_answered::<F>(alloc, partner),
        Trial::Call(row, len) => call_is_refused::<F>(alloc, *row, len),
        Trial::List(len) => list_is_refused::<F>(alloc, len),
        Trial::Text(len) => text_is_refused::<F>(alloc, len),
    }
}

/// The same of the field of a kernel.
fn succeeds_at<R: ShortWord, K: TranscriptKernel<R>>(alloc: Global, trial: Trial<'_>) -> bool {
    succeeds::<Element<R, K>>(alloc, trial)
}

/// The fields of transcripts.
#[derive(Clone, Copy)]
enum Field {
    Tower16,
    Tower32,
    Tower128,
}

fn succeeds_in(alloc: Global, field: Field, trial: Trial<'_>) -> bool {
    match field {
        Field::Tower16 => succeeds_at::<u16, Tower<Bits16>>(alloc, trial),
        Field::Tower32 => succeeds_at::<u32, Tower<Bits32>>(alloc, trial),
        Field::Tower128 => succeeds_at::<u128, Tower<Bits128>>(alloc, trial),
    }
}

// A narrow one and the widest: the code is the same for all.
static ENDS: [Field; 2] = [Field::Tower16, Field::Tower128];

// Whether a search from the state finds the least witness, and leaves the challenger as after it.
fn is_found(alloc: Global, row: &(u64, u16, u16)) -> bool {
    let (state, witness, next) = *row;
    let rows = [[4, 8, 0, witness as u128], [1, 0, 0, next as u128]];
    succeeds_in(
        alloc,
        Field::Tower16,
        Trial::Script(&state.to_le_bytes(), &rows),
    )
}

#[test]
fn scripts_are_followed_and_searches_end(rt: HostRuntime) {
    let alloc = rt.alloc();
    for place in 0..2usize {
        let script = Trial::Script(&[], SCRIPTS[place]);
        assert!(rt; succeeds_in(alloc, ENDS[place], script), "script {place}");
    }
    let many_calls = Trial::Script(&[], &CALLS);
    assert!(rt; succeeds_in(alloc, Field::Tower32, many_calls));
    for row in &LEAST_WITNESSES {
        assert!(rt; is_found(alloc, row));
    }
}

fn texts_are_refused(alloc: Global, field: Field) -> bool {
    for len in 0..258usize {
        if !succeeds_in(alloc, field, Trial::Text(len)) {
            return false;
        }
    }
    true
}

#[test]
fn texts_are_granted_or_refused(rt: HostRuntime) {
    for field in &ENDS {
        assert!(rt; texts_are_refused(rt.alloc(), *field));
    }
}

fn answers(alloc: Global, field: Field, partner: Partner) -> bool {
    succeeds_in(alloc, field, Trial::Partner(&partner))
}

#[test]
fn hostile_partners_are_answered(rt: HostRuntime) {
    for row in &SEARCHES {
        assert!(rt; answers(rt.alloc(), Field::Tower16, search(row)));
    }
    assert!(rt; answers(rt.alloc(), Field::Tower16, refused_copy()));
    for row in &REFUSED_CALLS {
        assert!(rt; answers(rt.alloc(), Field::Tower32, refused_call(row)));
    }
    for row in &GRANTED_CALLS {
        assert!(rt; answers(rt.alloc(), Field::Tower32, granted_call(row)));
    }
}

// Searches for 1 to 8 bits.
static SEARCHES_FOR_BITS: [Row; 8] = [
    [4, 1, 0, 0],
    [4, 2, 0, 0],
    [4, 3, 0, 0],
    [4, 4, 0, 0],
    [4, 5, 0, 0],
    [4, 6, 0, 0],
    [4, 7, 0, 0],
    [4, 8, 0, 0],
];

// Every call of a challenger from each initial state. A search takes many calls, and is made from 16 states, for 1 to 8 bits.
fn calls_are_refused(alloc: Global, field: Field) -> bool {
    for len in 0..258usize {
        for row in &EVERY_CALL {
            let is_search = row[0] == 4 && row[1] > 0;
            if !is_search && !succeeds_in(alloc, field, Trial::Call(row, len)) {
                return false;
            }
        }
    }
    for len in 0..16usize {
        for row in &SEARCHES_FOR_BITS {
            if !succeeds_in(alloc, field, Trial::Call(row, len)) {
                return false;
            }
        }
    }
    true
}

#[test]
fn calls_are_granted_or_refused(rt: HostRuntime) {
    assert!(rt;
        calls_are_refused(rt.alloc(), Field::Tower16)
            && calls_are_refused(rt.alloc(), Field::Tower128)
    );
}

#[test]
fn lists_of_calls_are_granted_or_refused(rt: HostRuntime) {
    for len in 0..258usize {
        assert!(rt;
            succeeds_in(rt.alloc(), Field::Tower32, Trial::List(len)),
            "{len} calls"
        );
    }
}

#[test]
fn vectors_go_by_coefficients(rt: HostRuntime) {
    assert!(rt; vectors_are_taken::<Poly64, Poly192>(rt.alloc()));
}
