// Operands as words in hexadecimal. A word is read as a number of 128 bits at every type: reading has to be proved anew at each.
ghost use Rattle.std.specs.Prelude.{◌≤◌, IfOk};

use crate::fault::Fault;
use std::alloc::Global;

/// What a word names in a table.
pub(crate) fn named<T: Copy>(table: &[(&str, T)], word: &str) -> Result<T, Fault> {
    for (name, value) in table {
        if *name == word {
            return Ok(*value);
        }
    }
    Err(Fault::Line)
}

/// The number that a word writes.
pub(crate) fn number(word: &str) -> Result<u128, Fault> {
    u128::from_str_radix(word, 16).ok().ok_or(Fault::Line)
}

/// The number that a word writes, if it is at most `most`.
fn number_up_to(word: &str, most: u128) -> Result<u128, Fault>
    ensures { IfOk result (λ number. number ≤ most) }
{
    let written = number(word)?;
    if written > most {
        return Err(Fault::Line);
    }
    Ok(written)
}

/// The word of 64 bits that a word writes.
pub(crate) fn word(word: &str) -> Result<u64, Fault> {
    Ok(number_up_to(word, 0xffff_ffff_ffff_ffff)? as u64)
}

/// The byte that a word writes.
pub(crate) fn byte(word: &str) -> Result<u8, Fault> {
    Ok(number_up_to(word, 0xff)? as u8)
}

/// The place or the count that a word writes, below 2^32.
pub(crate) fn count(word: &str) -> Result<usize, Fault> {
    Ok(number_up_to(word, 0xffff_ffff)? as usize)
}

/// The numbers that a list writes.
pub(crate) fn numbers(alloc: Global, list: &str) -> Result<Vec<u128>, Fault> {
    let mut numbers = Vec::new(alloc);
    if list != "-" {
        for word in list.split(',') {
            numbers.push(number(word)?)?;
        }
    }
    Ok(numbers)
}

/// The bytes that a list writes.
pub(crate) fn bytes(alloc: Global, list: &str) -> Result<Vec<u8>, Fault> {
    let mut bytes = Vec::new(alloc);
    for number in numbers(alloc, list)? {
        bytes.push(u8::try_from(number).ok().ok_or(Fault::Line)?)?;
    }
    Ok(bytes)
}
