// Words of the codes of `codes` that stand interleaved: the first symbols of all words, one after the other, then the second symbols. There
// are as many words as symbols at one place.
ghost use Rattle.std.specs.Prelude.{◌≡◌, ◌-◌, ◌*◌, ◌≤◌, length};
ghost use Rattle.reed_solomon.specs.ByteFields.{byte_times};
ghost use Rattle.error_codes.specs.Interleaved.{AreWordValues};
ghost use Rattle.c_calls.specs.InterleavedCodes.{AreSettled, CorrectsInterleaved, EncodesInterleaved, WritesInterleavedSyndromes};

use crate::codes::{code_of, list_places};
use crate::shapes::has_shape;
use crate::status;
use error_codes::CorrectingCode;

/// Writes the symbols of each word behind its data, so that it is a word of the code. `CODE` says that there is no such code, and then
/// `LENGTH` that there are no whole words.
pub fn encode(
    modulus: u64,
    word_length: u64,
    dimension: u64,
    first_root: u64,
    root_step: u64,
    words: &mut [u8],
) -> u32
    ensures { EncodesInterleaved modulus word_length dimension first_root root_step words.old words.new result }
{
    let Some(code) = code_of(modulus, word_length, dimension, first_root, root_step) else {
        return status::CODE;
    };
    let depth = words.len() / code.word_length();
    if words.len() % code.word_length() != 0 {
        return status::LENGTH;
    }
    code.encode_interleaved(words, depth);
    status::OK
}

/// Writes the values of each word at the roots of the code: those of all words at a root stand one after the other. `CODE` says that there is
/// no such code, and then `LENGTH` that there are no whole words, or not as many values as they have.
pub fn syndromes(
    modulus: u64,
    word_length: u64,
    dimension: u64,
    first_root: u64,
    root_step: u64,
    words: &[u8],
    values: &mut [u8],
) -> u32
    ensures { WritesInterleavedSyndromes modulus word_length dimension first_root root_step words.now values.old values.new result }
{
    let Some(code) = code_of(modulus, word_length, dimension, first_root, root_step) else {
        return status::CODE;
    };
    let depth = words.len() / code.word_length();
    let checks = code.word_length() - code.dimension();
    if words.len() % code.word_length() != 0 || !has_shape(values.len(), depth, checks) {
        return status::LENGTH;
    }
    code.syndromes_interleaved(words, depth, values);
    status::OK
}

/// Corrects each word in place: it becomes the only word of the code from which it differs at t places beside e erased ones, where 2 t + e is
/// at most the number of symbols that are not data, and 1 is written. Where there is none it stays, and 0 is written. A place is
/// erased in all words where its flag is not 0; no flags say that none is. The values of the received words are written too, as `syndromes`
/// writes them. `CODE` says that there is no such code, and then `LENGTH` that there are no whole words, not as many values as they have, not
/// one answer for each word, or flags but not one for each place.
pub fn correct(
    modulus: u64,
    word_length: u64,
    dimension: u64,
    first_root: u64,
    root_step: u64,
    words: &mut [u8],
    erasures: &[u8],
    values: &mut [u8],
    corrected: &mut [u8],
) -> u32
    ensures { CorrectsInterleaved modulus word_length dimension first_root root_step erasures.now words.old values.old corrected.old
        words.new values.new corrected.new result }
{
    let Some(code) = code_of(modulus, word_length, dimension, first_root, root_step) else {
        return status::CODE;
    };
    let depth = words.len() / code.word_length();
    let checks = code.word_length() - code.dimension();
    if words.len() % code.word_length() != 0 || !has_shape(values.len(), depth, checks) {
        return status::LENGTH;
    }
    if corrected.len() != depth {
        return status::LENGTH;
    }
    if erasures.len() != 0 && erasures.len() != code.word_length() {
        return status::LENGTH;
    }
    correct_words(&code, words, depth, erasures, values, corrected);
    status::OK
}

// Corrects each word, with the same flags for all.
fn correct_words(
    code: &CorrectingCode,
    words: &mut [u8],
    depth: usize,
    erasures: &[u8],
    values: &mut [u8],
    corrected: &mut [u8],
)
    requires whole { length words.old ≡ code.now.word_length * depth }
    requires room { length values.old ≡ (code.now.word_length - code.now.dimension) * depth }
    requires answers { length corrected.old ≡ depth }
    requires few { length erasures.now ≤ code.now.word_length }
    ensures room { length values.new ≡ length values.old }
    ensures values { AreWordValues (byte_times code.now.field) code.now.root code.now.first_root code.now.word_length
        (code.now.word_length - code.now.dimension) depth words.old values.new }
    ensures settled { AreSettled (byte_times code.now.field) code.now.root code.now.first_root code.now.word_length
        (code.now.word_length - code.now.dimension) depth erasures.now words.old words.new corrected.new }
{
    let mut places = [0; 256];
    let count = list_places(erasures, &mut places);
    code.correct_interleaved(words, depth, &places[..count], values, corrected);
}
