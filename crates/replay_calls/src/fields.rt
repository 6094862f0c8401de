// What two fields have of their own, by their arithmetic on words: what is generic in the width is the same code at every other.
use crate::fault::Fault;
use crate::reading::{count, number};
use field_base::{LevelKernel, Unsigned};
use word_polynomial::GhashKernel;
use word_tower::{Bits16, Tower};

/// A field whose calls are answered.
#[derive(Clone, Copy)]
pub(crate) enum Asked {
    T16,
    G128,
}

/// The answer to a call of a field.
pub(crate) fn answer(field: Asked, call: &[&str]) -> Result<u128, Fault> {
    match field {
        Asked::T16 => kernel_call::<u16, Tower<Bits16>>(call),
        Asked::G128 => kernel_call::<u128, GhashKernel>(call),
    }
}

/// The answer to a call of the field of a kernel.
fn kernel_call<R: Unsigned, K: LevelKernel<R>>(call: &[&str]) -> Result<u128, Fault> {
    match call {
        ["bits"] => Ok(K::bits() as u128),
        ["generator"] => Ok(K::GENERATOR.to_u128()),
        ["cantor_basis", place] => cantor_vector::<R, K>(count(*place)?),
        ["mul_alpha", x] => { Ok(K::multiply_by_alpha(stored::<R>(number(*x)?)?).to_u128()) }
        _ => Err(Fault::Line),
    }
}

/// The Cantor vector at a place, which has to be one of the field's bits.
fn cantor_vector<R: Unsigned, K: LevelKernel<R>>(place: usize) -> Result<u128, Fault> {
    if place < K::bits() {
        Ok(K::cantor_vector(place).to_u128())
    } else {
        Err(Fault::Line)
    }
}

/// The number as a word, which has to have room for it.
pub(crate) fn stored<R: Unsigned>(number: u128) -> Result<R, Fault> {
    let word = R::of_u128(number);
    if word.to_u128() == number {
        Ok(word)
    } else {
        Err(Fault::Line)
    }
}
