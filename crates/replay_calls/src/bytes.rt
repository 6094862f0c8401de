// The byte field of AES: matrices of 8 by 8 bits, and linearized polynomials.
use crate::fault::Fault;
use crate::reading::{byte, bytes, word};
use field_element::Rijndael8b;
use field_space::{ByteMatrix, LinearizedPoly8b, RijndaelMaps};
use std::alloc::Global;

/// A call of the byte field, of a matrix or of a linearized polynomial.
#[derive(Clone, Copy)]
pub(crate) enum ByteMap {
    ToQuadword,
    FromQuadword,
    ScalingMatrix,
    FrobeniusOrbit,
    ToMatrix,
    Compose,
    Eval,
}

/// What a call of the byte field gives.
pub(crate) fn mapped(alloc: Global, map: ByteMap, operands: &[&str]) -> Result<Vec<u128>, Fault> {
    match *operands {
        [operand] => of_one(alloc, map, operand),
        [left, right] => of_two(alloc, map, left, right),
        _ => Err(Fault::Line),
    }
}

/// What a call of one operand gives.
fn of_one(alloc: Global, map: ByteMap, operand: &str) -> Result<Vec<u128>, Fault> {
    match map {
        ByteMap::ToQuadword => {
            let quadword = matrix(alloc, operand)?.to_quadword();
            Ok(vec![in alloc; u128::from(quadword)]?)
        }
        ByteMap::FromQuadword => images_of(alloc, ByteMatrix::from_quadword(word(operand)?)),
        ByteMap::ScalingMatrix => images_of(alloc, element(operand)?.scaling_matrix()),
        ByteMap::FrobeniusOrbit => orbit(alloc, element(operand)?),
        ByteMap::ToMatrix => images_of(alloc, polynomial(alloc, operand)?.to_matrix()),
        _ => Err(Fault::Line),
    }
}

/// What a call of two operands gives.
fn of_two(alloc: Global, map: ByteMap, left: &str, right: &str) -> Result<Vec<u128>, Fault> {
    match map {
        ByteMap::Compose => {
            images_of(alloc, matrix(alloc, left)?.compose(matrix(alloc, right)?))
        }
        ByteMap::Eval => {
            let value = polynomial(alloc, left)?.eval(element(right)?);
            Ok(vec![in alloc; u128::from(value.to_byte())]?)
        }
        _ => Err(Fault::Line),
    }
}

/// The element whose representation a word writes.
fn element(word: &str) -> Result<Rijndael8b, Fault> {
    Ok(Rijndael8b::from_byte(byte(word)?))
}

/// The eight bytes that a list writes.
fn eight(alloc: Global, list: &str) -> Result<[u8; 8], Fault> {
    let listed = bytes(alloc, list)?;
    let eight: &[u8; 8] = listed.as_slice().try_into().ok().ok_or(Fault::Line)?;
    Ok(*eight)
}

/// The matrix whose images a list writes.
fn matrix(alloc: Global, images: &str) -> Result<ByteMatrix, Fault> {
    Ok(ByteMatrix::from_images(eight(alloc, images)?))
}

/// The linearized polynomial whose coefficients a list writes.
fn polynomial(alloc: Global, coefficients: &str) -> Result<LinearizedPoly8b, Fault> {
    Ok(LinearizedPoly8b::new(eight(alloc, coefficients)?.map(|byte| Rijndael8b::from_byte(byte))))
}

/// The images of a matrix.
fn images_of(alloc: Global, matrix: ByteMatrix) -> Result<Vec<u128>, Fault> {
    let mut images = Vec::new(alloc);
    for image in matrix.images().as_slice() {
        images.push(u128::from(*image))?;
    }
    Ok(images)
}

/// An element squared 0 to 7 times.
fn orbit(alloc: Global, x: Rijndael8b) -> Result<Vec<u128>, Fault> {
    let mut answer = Vec::new(alloc);
    for conjugate in x.frobenius_orbit().as_slice() {
        answer.push(u128::from(conjugate.to_byte()))?;
    }
    Ok(answer)
}
