//! Answers calls of the library, one a line, and is run on a sample that the Rust crate p3-binary-field 0.8.0 answered.
//!
//! A line is words: what is called and its operands. Numbers and representations are in hexadecimal, a list has commas
//! between its numbers, and `-` is the empty list. The answer is a list too, or `error` for a line that is no call, or whose
//! operands the function does not take. A line that begins with `#` is repeated.
//!
//! | Line | Wanted |
//! |---|---|
//! | `t16 mul_alpha 53`, `g128 cantor_basis 7f` | what a field has of its own |
//! | `streams/t16 u32 102,304,506`, `streams/t16 text 13` | the items of a stream of elements, or the bytes of their text |
//! | `interleave 0 1,2,3,4`, `parts 201,0` | rows of 128 bits by their words, the low one first, as they are changed or cut into bytes |
//! | `byte_lanes mul 1,2,..,10 1,2,..,10` | the lanes of packings |
//! | `compose 1,2,..,80 1,2,..,80`, `eval 1,0,0,0,0,0,0,0 53` | the images of a matrix of bits, or a value of a polynomial |
//!
//! The file `stdout` has the crate's answers to the calls of `stdin`, which were drawn from the seed 20261122, and before them worked
//! rows. scripts/make_vectors.py writes both. A definition is asked at one instance for each kind of code: what a field has of its own
//! at a level of the tower and at a field of polynomials, rows of bits at one width, lanes in one packing. The arithmetic of every
//! field is in the lines of `binfield`; sums, products, views over smaller fields and operators between two fields, whose
//! contracts say them by that arithmetic and by places of bits alone, have rows in `test_protocols`.
//! What a function of the C library defines, as changes of basis, linear maps, slices and low stages, is replayed through it.
#![tactic(auto)]

mod bits;
mod bytes;
mod fault;
mod fields;
mod packed;
mod reading;
mod streams;

use crate::bits::Rearrangement;
use crate::bytes::ByteMap;
use crate::fault::Fault;
use crate::fields::Asked;
use crate::reading::named;
use std::alloc::{AllocError, Global};
use std::fmt::Write;
use std::io;

/// What the first word of a line names.
#[derive(Clone, Copy)]
enum Subject {
    Field(Asked),
    Stream(Asked),
    StreamOfCubics,
    Bytes(ByteMap),
    Bits(Rearrangement),
    SixteenBytes,
}

static SUBJECTS: [(&str, Subject); 16] = [
    ("t16", Subject::Field(Asked::T16)),
    ("g128", Subject::Field(Asked::G128)),
    ("streams/t16", Subject::Stream(Asked::T16)),
    ("streams/g128", Subject::Stream(Asked::G128)),
    ("streams/p192", Subject::StreamOfCubics),
    ("to_quadword", Subject::Bytes(ByteMap::ToQuadword)),
    ("from_quadword", Subject::Bytes(ByteMap::FromQuadword)),
    ("scaling_matrix", Subject::Bytes(ByteMap::ScalingMatrix)),
    ("frobenius_orbit", Subject::Bytes(ByteMap::FrobeniusOrbit)),
    ("to_matrix", Subject::Bytes(ByteMap::ToMatrix)),
    ("compose", Subject::Bytes(ByteMap::Compose)),
    ("eval", Subject::Bytes(ByteMap::Eval)),
    ("transpose", Subject::Bits(Rearrangement::Transpose)),
    ("interleave", Subject::Bits(Rearrangement::Interleave)),
    ("parts", Subject::Bits(Rearrangement::Parts)),
    ("byte_lanes", Subject::SixteenBytes),
];

/// The answer to a call.
fn answer(alloc: Global, name: &str, call: &[&str]) -> Result<Vec<u128>, Fault> {
    match named(&SUBJECTS, name)? {
        Subject::Field(field) => Ok(vec![in alloc; fields::answer(field, call)?]?),
        Subject::Stream(field) => streams::field_call(alloc, field, call),
        Subject::StreamOfCubics => streams::cubic_call(alloc, call),
        Subject::Bytes(map) => bytes::mapped(alloc, map, call),
        Subject::Bits(rearrangement) => bits::rearranged(alloc, rearrangement, call),
        Subject::SixteenBytes => packed::computed(alloc, call),
    }
}

/// The numbers with commas between them.
fn listed(alloc: Global, numbers: &[u128]) -> Result<String, AllocError> {
    if numbers.is_empty() {
        return String::from_str(alloc, "-");
    }
    let mut text = String::new(alloc);
    for (place, number) in numbers.iter().enumerate() {
        let comma = if place == 0 { "" } else { "," };
        write!(text, "{comma}{number:x}")?;
    }
    Ok(text)
}

/// What is printed for a line.
fn reply(alloc: Global, line: &str) -> Result<String, AllocError> {
    if line.starts_with('#') {
        return String::from_str(alloc, line);
    }
    let words: Vec<&str> = line.split_whitespace().collect(alloc)?;
    let given = match words.split_first() {
        Some((name, call)) => answer(alloc, name, call),
        None => Err(Fault::Line),
    };
    match given {
        Ok(numbers) => listed(alloc, &numbers),
        Err(Fault::Line) => String::from_str(alloc, "error"),
        Err(Fault::Memory(error)) => Err(error),
    }
}

fn main(rt: HostRuntime) -> io::Result<()> {
    for line in rt.lines(rt.alloc()) {
        let text = reply(rt.alloc(), line?.as_str())?;
        println!(rt; "{text}")?;
    }
    Ok(())
}
