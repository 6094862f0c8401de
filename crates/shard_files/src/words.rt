// Bytes as words of 16 bits, the lower byte first.
ghost use Rattle.std.specs.Prelude.{◌≡◌, ◌≢◌, ◌⊎◌, ℕ, ◌+◌, ◌*◌, ◌<◌, ◌≤◌, length, slice_index, IfOk};
ghost use Rattle.shard_files.specs.Codes.{AreWordsOf, IsWordAt};

use std::alloc::{AllocError, Global};

/// So many words as so many shards of a size have, all zero.
pub(crate) fn zero_words(alloc: Global, count: usize, size: usize) -> Result<Vec<u16>, AllocError>
    ensures { IfOk result (λ words. length words.items ≡ count * size) }
{
    match count.checked_mul(size) {
        Some(length) => vec![in alloc; 0u16; length],
        None => Err(AllocError),
    }
}

/// The words of so many shards of a size, from word `first` of the bytes on.
pub(crate) fn words_of(
    alloc: Global,
    bytes: &[u8],
    first: usize,
    count: usize,
    size: usize,
) -> Result<Vec<u16>, AllocError>
    requires { 2 * (first + count * size) ≤ length bytes.now }
    ensures { IfOk result (λ words. (length words.items ≡ count * size) × AreWordsOf bytes.now first words.items) }
{
    let mut words = zero_words(alloc, count, size)?;
    read_words(bytes, first, words.as_mut_slice());
    Ok(words)
}

// Reads words, from word `first` of the bytes on.
fn read_words(bytes: &[u8], first: usize, words: &mut [u16])
    requires { 2 * (first + length words.old) ≤ length bytes.now }
    ensures long { length words.new ≡ length words.old }
    ensures read { AreWordsOf bytes.now first words.new }
{
    for i in 0..words.len() {
        words[i] = word_at(bytes, 2 * (first + i));
    }
}

// The word at a place.
fn word_at(bytes: &[u8], place: usize) -> u16
    requires { place + 1 < length bytes.now }
    ensures { IsWordAt bytes.now place result }
{
    bytes[place] as u16 + 256 * bytes[place + 1] as u16
}

/// Writes words, from word `first` of the bytes on.
pub(crate) fn write_words(words: &[u16], first: usize, bytes: &mut [u8])
    requires { 2 * (first + length words.now) ≤ length bytes.old }
    ensures long { length bytes.new ≡ length bytes.old }
    ensures written { AreWordsOf bytes.new first words.now }
    ensures kept { (place : ℕ) → (place < 2 * first) ⊎ (2 * (first + length words.now) ≤ place)
        → slice_index bytes.new place ≡ slice_index bytes.old place }
{
    for i in 0..words.len() {
        write_word(words[i], 2 * (first + i), bytes);
    }
}

// Writes a word at a place.
fn write_word(word: u16, place: usize, bytes: &mut [u8])
    requires { place + 1 < length bytes.old }
    ensures long { length bytes.new ≡ length bytes.old }
    ensures written { IsWordAt bytes.new place word }
    ensures kept { (other : ℕ) → other ≢ place → other ≢ place + 1 → slice_index bytes.new other ≡ slice_index bytes.old other }
{
    bytes[place] = (word % 256) as u8;
    bytes[place + 1] = (word / 256 % 256) as u8;
}
