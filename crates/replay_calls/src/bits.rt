// Packed bits, as the words of their rows, the lowest first: rows transposed and interleaved, and their parts.
ghost use Rattle.std.specs.Prelude.{◌≡◌, ◌<◌, ◌^◌};

use crate::fault::Fault;
use crate::reading::{count, word};
use bits_packed::PackedGf2;
use packed_lanes::{Divisible, M128, Underlier, Word};
use std::alloc::Global;

/// A call of packed bits.
#[derive(Clone, Copy)]
pub(crate) enum Rearrangement {
    Transpose,
    Interleave,
    Parts,
}

/// What a call of packed bits gives: the words of the rows, one row after the other. The rows have 128 bits, and the parts are bytes:
/// the code of rows is the same at every width.
pub(crate) fn rearranged(
    alloc: Global,
    rearrangement: Rearrangement,
    call: &[&str],
) -> Result<Vec<u128>, Fault> {
    rearranged_rows::<M128, u8>(alloc, rearrangement, call)
}

/// `rearranged` for rows `U` and parts `V`. One call alone names the types: that they meet the bounds takes the check longer than the rest.
fn rearranged_rows<U: Divisible<V>, V: Underlier>(
    alloc: Global,
    rearrangement: Rearrangement,
    call: &[&str],
) -> Result<Vec<u128>, Fault> {
    match (rearrangement, call) {
        (Rearrangement::Transpose, [list]) => transposed::<U>(alloc, *list),
        (Rearrangement::Interleave, [log, list]) => interleaved::<U>(alloc, count(*log)?, *list),
        (Rearrangement::Parts, [list]) => parts::<U, V>(alloc, *list),
        _ => Err(Fault::Line),
    }
}

/// The rows whose words a list writes. The words have to be those of whole rows.
fn rows<U: Underlier>(alloc: Global, list: &str) -> Result<Vec<U>, Fault> {
    let mut rows = Vec::new(alloc);
    let mut row = U::ZERO;
    let mut place = 0;
    for text in list.split(',') {
        let written = word(text)?;
        if place == U::WORD_COUNT {
            rows.push(row)?;
            place = 0;
        }
        if place < U::WORD_COUNT {
            row.set_word(place, <U::Word as Word>::from_u64(written));
            place += 1;
        }
    }
    if place != U::WORD_COUNT {
        return Err(Fault::Line);
    }
    rows.push(row)?;
    Ok(rows)
}

/// Writes the words of a row behind an answer.
fn show<U: Underlier>(answer: &mut Vec<u128>, row: &U) -> Result<(), Fault> {
    for i in 0..U::WORD_COUNT {
        answer.push(u128::from(row.word(i).to_u64()))?;
    }
    Ok(())
}

/// The rows transposed, of which there have to be as many as a row has bits.
fn transposed<U: Underlier>(alloc: Global, list: &str) -> Result<Vec<u128>, Fault> {
    let listed: Vec<U> = rows(alloc, list)?;
    let mut packed = Vec::new(alloc);
    for row in listed.as_slice() {
        packed.push(PackedGf2::new(*row))?;
    }
    if packed.len() != U::BITS {
        return Err(Fault::Line);
    }
    PackedGf2::<U>::transpose(packed.as_mut_slice());
    let mut answer = Vec::new(alloc);
    for row in packed.as_slice() {
        show(&mut answer, &row.to_bits())?;
    }
    Ok(answer)
}

/// Two rows interleaved by blocks of 2^log lanes.
fn interleaved<U: Underlier>(alloc: Global, log: usize, list: &str) -> Result<Vec<u128>, Fault> {
    let listed: Vec<U> = rows(alloc, list)?;
    let [left, right] = *listed.as_slice() else {
        return Err(Fault::Line);
    };
    if log > 9 || block_of(log) > U::BITS {
        return Err(Fault::Line);
    }
    let (first, second) = PackedGf2::new(left).interleave(PackedGf2::new(right), block_of(log));
    let mut answer = Vec::new(alloc);
    show(&mut answer, &first.to_bits())?;
    show(&mut answer, &second.to_bits())?;
    Ok(answer)
}

/// The lanes of a block.
fn block_of(log: usize) -> usize
    requires { log < 10 }
    ensures { result ≡ 2 ^ log }
{
    1 << log
}

/// The parts of one row.
fn parts<U: Divisible<V>, V: Underlier>(alloc: Global, list: &str) -> Result<Vec<u128>, Fault> {
    let listed: Vec<U> = rows(alloc, list)?;
    let mut answer = Vec::new(alloc);
    for part in U::split_copied(alloc, listed.as_slice())?.as_slice() {
        show(&mut answer, part)?;
    }
    Ok(answer)
}
