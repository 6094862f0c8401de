// Elements as bytes, as streams of bytes and words, and as text.
ghost use Rattle.std.specs.Iterator.{IsFinite};

use crate::fault::Fault;
use crate::fields::{Asked, stored};
use crate::reading::{numbers, word};
use field_base::Unsigned;
use field_bytes::{
    LittleEndian, RawDataSerializable, into_byte_stream, into_u32_stream, into_u64_stream,
};
use field_element::{Element, HasPacking, Poly64, Poly192, element_of_word};
use std::alloc::Global;
use std::fmt::Display;
use word_polynomial::GhashKernel;
use word_tower::{Bits16, Tower};

/// A stream of elements of a field whose elements are words, or their text.
pub(crate) fn field_call(alloc: Global, field: Asked, call: &[&str]) -> Result<Vec<u128>, Fault> {
    match field {
        Asked::T16 => kernel_call::<u16, Tower<Bits16>>(alloc, call),
        Asked::G128 => kernel_call::<u128, GhashKernel>(alloc, call),
    }
}

/// `field_call` for the field of a kernel.
fn kernel_call<R: Unsigned + LittleEndian, K: HasPacking<R>>(
    alloc: Global,
    call: &[&str],
) -> Result<Vec<u128>, Fault> {
    let [kind, list] = *call else {
        return Err(Fault::Line);
    };
    let mut listed: Vec<Element<R, K>> = Vec::new(alloc);
    for number in numbers(alloc, list)? {
        listed.push(element_of_word(stored(number)?))?;
    }
    stream(alloc, kind, listed.as_slice())
}

/// `field_call` for elements of `Poly192`, each by three numbers, coefficient 0 first.
pub(crate) fn cubic_call(alloc: Global, call: &[&str]) -> Result<Vec<u128>, Fault> {
    let [kind, list] = *call else {
        return Err(Fault::Line);
    };
    let listed = cubics(alloc, list)?;
    stream(alloc, kind, listed.as_slice())
}

/// The elements of `Poly192` whose coefficients a list writes.
fn cubics(alloc: Global, list: &str) -> Result<Vec<Poly192>, Fault> {
    let mut cubics = Vec::new(alloc);
    let mut numbers = list.split(',');
    if list != "-" {
        for _ in list.split(',').step_by(3) {
            let mut coefficients = [Poly64::new(0); 3];
            for place in 0..3usize {
                if let Some(number) = numbers.next() {
                    coefficients[place] = Poly64::new(word(number)?);
                }
            }
            cubics.push(Poly192::new(coefficients))?;
        }
    }
    Ok(cubics)
}

/// The items of a stream of elements, or their text.
fn stream<E: RawDataSerializable + Display>(
    alloc: Global,
    kind: &str,
    elements: &[E],
) -> Result<Vec<u128>, Fault> {
    let elements_given = elements.iter().copied();
    match kind {
        "bytes" => collected(alloc, into_byte_stream(elements_given)),
        "u32" => collected(alloc, into_u32_stream(elements_given)),
        "u64" => collected(alloc, into_u64_stream(elements_given)),
        "text" => text(alloc, elements),
        _ => Err(Fault::Line),
    }
}

/// The numbers that an iterator gives.
fn collected<T: Into<u128>, I: Iterator<Item = T> + Drop>(
    alloc: Global,
    given: I,
) -> Result<Vec<u128>, Fault>
    requires may { I.can_next given }
    requires ends { IsFinite (I.remaining given) }
{
    let mut items = Vec::new(alloc);
    for item in given {
        items.push(item.into())?;
    }
    Ok(items)
}

/// The bytes of the elements' text.
fn text<E: Display>(alloc: Global, elements: &[E]) -> Result<Vec<u128>, Fault> {
    let mut items = Vec::new(alloc);
    for element in elements {
        for byte in format!(in alloc; "{element}")?.as_bytes() {
            items.push(u128::from(*byte))?;
        }
    }
    Ok(items)
}
