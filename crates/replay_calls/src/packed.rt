// Packings of sixteen bytes of AES: what is done lane by lane is the same in every packing.
use crate::fault::Fault;
use crate::reading::{bytes, word};
use field_element::{PackedRijndael8b, Rijndael8b};
use field_space::{ByteLanes, ByteMatrix, RijndaelMaps};
use packed_lanes::PackedValue;
use std::alloc::Global;

/// What an operation on packings gives: its lanes.
pub(crate) fn computed(alloc: Global, call: &[&str]) -> Result<Vec<u128>, Fault> {
    let lanes = match call {
        ["mul", x, y] => sixteen(alloc, *x)? * sixteen(alloc, *y)?,
        ["apply", x, y] => sixteen(alloc, *x)?.apply(ByteMatrix::from_quadword(word(*y)?)),
        ["invert_or_zero", x] => sixteen(alloc, *x)?.invert_or_zero(),
        _ => return Err(Fault::Line),
    };
    shown_sixteen(alloc, lanes)
}

/// The packing of the sixteen lanes that a list writes.
fn sixteen(alloc: Global, list: &str) -> Result<PackedRijndael8b<16>, Fault> {
    let listed = bytes(alloc, list)?;
    let lanes: &[u8; 16] = listed.as_slice().try_into().ok().ok_or(Fault::Line)?;
    Ok(PackedRijndael8b::<16>::from_slice(&(*lanes).map(|byte| Rijndael8b::from_byte(byte))))
}

fn shown_sixteen(alloc: Global, packing: PackedRijndael8b<16>) -> Result<Vec<u128>, Fault> {
    let mut answer = Vec::new(alloc);
    for lane in packing.as_slice() {
        answer.push(u128::from(lane.to_byte()))?;
    }
    Ok(answer)
}
