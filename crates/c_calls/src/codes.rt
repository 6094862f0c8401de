// Reed-Solomon codes over bytes that correct errors, on words that stand one after the other. A code is named by the modulus of its field,
// bit i for x^i, and the numbers that `CorrectingCode::new` takes.
ghost use Rattle.std.specs.Prelude.{◌≡◌, ◌-◌, ◌*◌, ◌/◌, ◌%◌, ◌+◌, ◌≤◌, ℕ, IfSome, IsNone, length, take};
ghost use borrow.Rule.Slice.PartMut.{put_mid};
ghost use Rattle.reed_solomon.specs.ByteFields.{byte_modulus, byte_times};
ghost use Rattle.error_codes.specs.Correcting.{is_listed};
ghost use Rattle.c_calls.specs.Codes.{AreCorrectedWords, AreEncodedWords, AreSyndromes, CorrectsWords, EncodesWords, HasCorrectingCode};
ghost use Rattle.c_calls.specs.Codes.{IsCorrectedWord, IsCorrectingCode, TellWords, is_flagged};
ghost use Rattle.c_calls.specs.Codes.{TellsCodeWords, WritesSyndromes, code_root};

use crate::shapes::has_shape;
use crate::status;
use error_codes::{ByteField, CorrectingCode};

/// What `correct` writes of a word that stands for no word of the code.
pub const NOT_CORRECTED: u16 = 65535;

/// Writes the symbols of each word behind its data, so that it is a word of the code. `CODE` says that there is no such code, and then
/// `LENGTH` that there are no whole words.
pub fn encode(
    modulus: u64,
    word_length: u64,
    dimension: u64,
    first_root: u64,
    root_step: u64,
    words: &mut [u8],
) -> u32
    ensures { EncodesWords modulus word_length dimension first_root root_step words.old words.new result }
{
    let Some(code) = code_of(modulus, word_length, dimension, first_root, root_step) else {
        return status::CODE;
    };
    if words.len() % code.word_length() != 0 {
        return status::LENGTH;
    }
    encode_words(&code, words);
    status::OK
}

/// Writes the values of each word at the roots of the code, those of a word one after the other. `CODE` says that there is no such code,
/// and then `LENGTH` that there are no whole words, or not as many values as they have.
pub fn syndromes(
    modulus: u64,
    word_length: u64,
    dimension: u64,
    first_root: u64,
    root_step: u64,
    words: &[u8],
    values: &mut [u8],
) -> u32
    ensures { WritesSyndromes modulus word_length dimension first_root root_step words.now values.old values.new result }
{
    let Some(code) = code_of(modulus, word_length, dimension, first_root, root_step) else {
        return status::CODE;
    };
    let count = words.len() / code.word_length();
    let checks = code.word_length() - code.dimension();
    if words.len() % code.word_length() != 0 || !has_shape(values.len(), count, checks) {
        return status::LENGTH;
    }
    write_syndromes(&code, words, values);
    status::OK
}

/// Writes for each word 1 where it is a word of the code, else 0. `CODE` says that there is no such code, and then `LENGTH` that there are
/// no whole words, or not as many flags.
pub fn are_words(
    modulus: u64,
    word_length: u64,
    dimension: u64,
    first_root: u64,
    root_step: u64,
    words: &[u8],
    flags: &mut [u8],
) -> u32
    ensures { TellsCodeWords modulus word_length dimension first_root root_step words.now flags.old flags.new result }
{
    let Some(code) = code_of(modulus, word_length, dimension, first_root, root_step) else {
        return status::CODE;
    };
    if words.len() % code.word_length() != 0 || flags.len() != words.len() / code.word_length() {
        return status::LENGTH;
    }
    write_flags(&code, words, flags);
    status::OK
}

/// Corrects each word in place: it becomes the only word of the code from which it differs at t places beside e erased ones, where 2 t + e is
/// at most the number of symbols that are not data, and how many of its symbols changed is written. Where there is none it stays, and
/// `NOT_CORRECTED` is written. A symbol is erased where its flag is not 0; no flags say that none is. `CODE` says that there is no such code,
/// and then `LENGTH` that there are no whole words, not one number for each of them, or flags but not one for each symbol.
pub fn correct(
    modulus: u64,
    word_length: u64,
    dimension: u64,
    first_root: u64,
    root_step: u64,
    words: &mut [u8],
    erasures: &[u8],
    corrected: &mut [u16],
) -> u32
    ensures { CorrectsWords modulus word_length dimension first_root root_step erasures.now words.old corrected.old words.new corrected.new
        result }
{
    let Some(code) = code_of(modulus, word_length, dimension, first_root, root_step) else {
        return status::CODE;
    };
    if words.len() % code.word_length() != 0
        || corrected.len() != words.len() / code.word_length()
    {
        return status::LENGTH;
    }
    if erasures.len() != 0 && erasures.len() != words.len() {
        return status::LENGTH;
    }
    correct_words(&code, words, erasures, corrected);
    status::OK
}

// Encodes each word.
fn encode_words(code: &CorrectingCode, words: &mut [u8])
    ensures { AreEncodedWords code.now.word_length (byte_times code.now.field) code.now.root code.now.first_root
        (code.now.word_length - code.now.dimension) code.now.dimension (length words.old / code.now.word_length) words.old words.new }
{
    let size = code.word_length();
    for i in 0..words.len() / size {
        let start = i * size;
        let end = start + size;
        code.encode(&mut words[start..end]);
    }
}

// Writes the values of each word at the roots.
fn write_syndromes(code: &CorrectingCode, words: &[u8], values: &mut [u8])
    requires { length values.old ≡ length words.now / code.now.word_length * (code.now.word_length - code.now.dimension) }
    ensures long { length values.new ≡ length values.old }
    ensures values { AreSyndromes code.now.word_length (byte_times code.now.field) code.now.root code.now.first_root
        (code.now.word_length - code.now.dimension) (length words.now / code.now.word_length) words.now values.new }
{
    let size = code.word_length();
    let checks = size - code.dimension();
    for i in 0..words.len() / size {
        let start = i * size;
        let end = start + size;
        let found = code.syndromes(&words[start..end]);
        write_word(values, i, &found[..checks]);
    }
}

// Writes word i.
fn write_word(words: &mut [u8], i: usize, word: &[u8])
    requires { i * length word.now + length word.now ≤ length words.old }
    ensures { words.new ≡ put_mid (i * length word.now) (length word.now) words.old word.now }
{
    let start = i * word.len();
    let end = start + word.len();
    words[start..end].copy_from_slice(word);
}

// Writes for each word whether it is one of the code.
fn write_flags(code: &CorrectingCode, words: &[u8], flags: &mut [u8])
    requires { length flags.old ≡ length words.now / code.now.word_length }
    ensures long { length flags.new ≡ length flags.old }
    ensures flags { TellWords code.now.word_length (byte_times code.now.field) code.now.root code.now.first_root
        (code.now.word_length - code.now.dimension) (length flags.old) words.now flags.new }
{
    let size = code.word_length();
    for i in 0..flags.len() {
        let start = i * size;
        let end = start + size;
        flags[i] = u8::from(code.is_code_word(&words[start..end]));
    }
}

// Corrects each word by its own flags, and writes how many symbols of each changed.
fn correct_words(code: &CorrectingCode, words: &mut [u8], erasures: &[u8], corrected: &mut [u16])
    requires { length corrected.old ≡ length words.old / code.now.word_length }
    ensures long { length corrected.new ≡ length corrected.old }
    ensures words { AreCorrectedWords code.now.word_length (byte_times code.now.field) code.now.root code.now.first_root
        (code.now.word_length - code.now.dimension) (length corrected.old) erasures.now words.old words.new corrected.new }
{
    let size = code.word_length();
    for i in 0..corrected.len() {
        let start = i * size;
        let end = start + size;
        let from = start.min(erasures.len());
        let to = end.min(erasures.len());
        corrected[i] = correct_word(code, &mut words[start..end], &erasures[from..to]);
    }
}

// Corrects a word, and says how many symbols changed; 65535 is no such number, since a word has at most 255.
fn correct_word(code: &CorrectingCode, word: &mut [u8], flags: &[u8]) -> u16
    requires long { length word.old ≡ code.now.word_length }
    requires few { length flags.now ≤ code.now.word_length }
    ensures long { length word.new ≡ length word.old }
    ensures corrected { IsCorrectedWord (byte_times code.now.field) code.now.root code.now.first_root code.now.word_length
        (code.now.word_length - code.now.dimension) flags.now word.old word.new result }
{
    let mut places = [0; 256];
    let count = list_places(flags, &mut places);
    match code.correct(word, &places[..count]) {
        Ok(corrected) => corrected.count as u16,
        Err(_) => NOT_CORRECTED,
    }
}

// Writes the places of the flags that are not 0, and says how many there are.
pub(crate) fn list_places(flags: &[u8], places: &mut [usize]) -> usize
    requires { length flags.now ≤ length places.old }
    ensures long { length places.new ≡ length places.old }
    ensures few { result ≤ length flags.now }
    ensures listed { (i : ℕ) → is_listed (take result places.new) i ≡ is_flagged flags.now i }
{
    let mut count = 0;
    for i in 0..flags.len() {
        if flags[i] != 0 {
            places[count] = i;
            count += 1;
        }
    }
    count
}

// The code with these numbers.
pub(crate) fn code_of(
    modulus: u64,
    word_length: u64,
    dimension: u64,
    first_root: u64,
    root_step: u64,
) -> Option<CorrectingCode>
    ensures made { IfSome result (λ code. IsCorrectingCode modulus word_length dimension root_step code.field
        × (code.word_length ≡ word_length) × (code.dimension ≡ dimension) × (code.first_root ≡ first_root)
        × (code.root ≡ code_root code.field root_step)) }
    ensures none { IsNone result → ¬ HasCorrectingCode modulus word_length dimension root_step }
{
    let Some(field) = field_with(modulus) else {
        return None;
    };
    match CorrectingCode::new(
        field,
        word_length as usize,
        dimension as usize,
        first_root as usize,
        root_step as usize,
    ) {
        Ok(code) => Some(code),
        Err(_) => None,
    }
}

// The field with this modulus.
pub(crate) fn field_with(modulus: u64) -> Option<ByteField>
    ensures found { IfSome result (λ field. byte_modulus field ≡ modulus) }
    ensures none { IsNone result → (field : ByteField) → ¬ (byte_modulus field ≡ modulus) }
{
    match modulus {
        0x11d => Some(ByteField::Qr),
        0x187 => Some(ByteField::Ccsds),
        0x11b => Some(ByteField::Rijndael),
        _ => None,
    }
}
