// Binary BCH codes, on words of bits that stand one after the other, a byte each. A code is named by the modulus of its field, bit i for
// x^i, and the numbers that `BinaryBch::new` takes.
ghost use Rattle.std.specs.Prelude.{◌≡◌, ◌-◌, ◌*◌, ◌/◌, ◌≤◌, ◌↔◌, IfNone, IfSome, IsTrue, length};
ghost use Rattle.error_codes.specs.BinaryBch.{AreBinary};
ghost use Rattle.reed_solomon.specs.ByteFields.{byte_times};
ghost use Rattle.c_calls.specs.BinaryCodes.{AreDataBits, AreEncodedBits, CorrectsBits, CorrectsWordsOfBits, EncodesBits, EncodesDataBits};
ghost use Rattle.c_calls.specs.BinaryCodes.{HasBinaryCode, IsBinaryCode, IsMeantBitsBy, TellBinaryWords, TellsBinaryWords};
ghost use Rattle.c_calls.specs.BinaryCodes.{TellsDataBits, TellsWordsOfBits};
ghost use Rattle.c_calls.specs.Codes.{AreCorrectedTo, IsCorrectedTo, code_root};

use crate::codes::{NOT_CORRECTED, field_with, list_places};
use crate::status;
use error_codes::BinaryBch;

/// Writes how many bits of a word are data. `CODE` says that there is no such code.
pub fn dimension(
    modulus: u64,
    word_length: u64,
    errors: u64,
    root_step: u64,
    dimension: &mut u64,
) -> u32
    ensures { TellsDataBits modulus word_length errors root_step dimension.old dimension.new result }
{
    match code_of(modulus, word_length, errors, root_step) {
        None => status::CODE,
        Some(code) => {
            *dimension = code.dimension() as u64;
            status::OK
        }
    }
}

/// Writes the bits of each word behind its data, so that it is a word of the code. `CODE` says that there is no such code, then `LENGTH` that
/// there are no whole words, and `NOT_AN_ELEMENT` that a byte of data is no bit. What stands behind the data is not read.
pub fn encode(modulus: u64, word_length: u64, errors: u64, root_step: u64, words: &mut [u8]) -> u32
    ensures { EncodesBits modulus word_length errors root_step words.old words.new result }
{
    match code_of(modulus, word_length, errors, root_step) {
        None => status::CODE,
        Some(code) => encode_words(&code, words),
    }
}

/// Writes for each word 1 where it is a word of the code, else 0; a byte that is no bit is in no word. `CODE` says that there is no such code,
/// and then `LENGTH` that there are no whole words, or not as many flags.
pub fn are_words(
    modulus: u64,
    word_length: u64,
    errors: u64,
    root_step: u64,
    words: &[u8],
    flags: &mut [u8],
) -> u32
    ensures { TellsBinaryWords modulus word_length errors root_step words.now flags.old flags.new result }
{
    match code_of(modulus, word_length, errors, root_step) {
        None => status::CODE,
        Some(code) => tell_words(&code, words, flags),
    }
}

/// Corrects each word in place: it becomes the only word of the code from which it differs at e places beside c erased ones, where 2 e + c is
/// at most twice the number of errors, and how many of its bits changed is written. Where there is none it stays, and `NOT_CORRECTED` is
/// written. A bit is erased where its flag is not 0; no flags say that none is. `CODE` says that there is no such code, and then `LENGTH` that
/// there are no whole words, not one number for each of them, or flags but not one for each bit.
pub fn correct(
    modulus: u64,
    word_length: u64,
    errors: u64,
    root_step: u64,
    words: &mut [u8],
    erasures: &[u8],
    corrected: &mut [u16],
) -> u32
    ensures { CorrectsBits modulus word_length errors root_step erasures.now words.old corrected.old words.new corrected.new result }
{
    match code_of(modulus, word_length, errors, root_step) {
        None => status::CODE,
        Some(code) => correct_words(&code, words, erasures, corrected),
    }
}

// The code with these numbers.
fn code_of(modulus: u64, word_length: u64, errors: u64, root_step: u64) -> Option<BinaryBch>
    ensures made { IfSome result (λ bch. IsBinaryCode modulus word_length errors root_step bch.code.field
        × (bch.code.word_length ≡ word_length) × (bch.code.word_length - bch.code.dimension ≡ 2 * errors)
        × (bch.code.root ≡ code_root bch.code.field root_step)) }
    ensures none { IfNone result (HasBinaryCode modulus word_length errors root_step → ⊥) }
{
    let Some(field) = field_with(modulus) else {
        return None;
    };
    match BinaryBch::new(
        field,
        word_length as usize,
        errors as usize,
        root_step as usize,
    ) {
        Ok(code) => Some(code),
        Err(_) => None,
    }
}

// Encodes each word, if lengths and bits fit.
fn encode_words(code: &BinaryBch, words: &mut [u8]) -> u32
    ensures { EncodesDataBits (byte_times code.now.code.field) code.now.code.root code.now.code.word_length
        (code.now.code.word_length - code.now.code.dimension) (code.now.code.word_length - code.now.checks) words.old words.new result }
{
    let size = code.word_length();
    if words.len() % size != 0 {
        return status::LENGTH;
    }
    if !data_are_bits(code, words) {
        return status::NOT_AN_ELEMENT;
    }
    write_words(code, words);
    status::OK
}

// Whether all symbols are bits.
fn are_bits(word: &[u8]) -> bool
    ensures { IsTrue result ↔ AreBinary (length word.now) word.now }
{
    for symbol in word {
        if *symbol >= 2 {
            return false;
        }
    }
    true
}

// Whether the data of each word are bits.
fn data_are_bits(code: &BinaryBch, words: &[u8]) -> bool
    ensures { IsTrue result ↔ AreDataBits code.now.code.word_length (code.now.code.word_length - code.now.checks)
        (length words.now / code.now.code.word_length) words.now }
{
    let size = code.word_length();
    for i in 0..words.len() / size {
        let start = i * size;
        let end = start + code.dimension();
        if !are_bits(&words[start..end]) {
            return false;
        }
    }
    true
}

// Encodes each word.
fn write_words(code: &BinaryBch, words: &mut [u8])
    requires { AreDataBits code.now.code.word_length (code.now.code.word_length - code.now.checks)
        (length words.old / code.now.code.word_length) words.old }
    ensures { AreEncodedBits (byte_times code.now.code.field) code.now.code.root code.now.code.word_length
        (code.now.code.word_length - code.now.code.dimension) (code.now.code.word_length - code.now.checks)
        (length words.old / code.now.code.word_length) words.old words.new }
{
    let size = code.word_length();
    for i in 0..words.len() / size {
        let start = i * size;
        let end = start + size;
        code.encode(&mut words[start..end]);
    }
}

// Writes for each word whether it is one of the code, if lengths fit.
fn tell_words(code: &BinaryBch, words: &[u8], flags: &mut [u8]) -> u32
    ensures { TellsWordsOfBits (byte_times code.now.code.field) code.now.code.root code.now.code.word_length
        (code.now.code.word_length - code.now.code.dimension) words.now flags.old flags.new result }
{
    let size = code.word_length();
    if words.len() % size != 0 || flags.len() != words.len() / size {
        return status::LENGTH;
    }
    write_flags(code, words, flags);
    status::OK
}

// Writes for each word whether it is one of the code.
fn write_flags(code: &BinaryBch, words: &[u8], flags: &mut [u8])
    requires { length flags.old ≡ length words.now / code.now.code.word_length }
    ensures long { length flags.new ≡ length flags.old }
    ensures flags { TellBinaryWords (byte_times code.now.code.field) code.now.code.root code.now.code.word_length
        (code.now.code.word_length - code.now.code.dimension) (length flags.old) words.now flags.new }
{
    let size = code.word_length();
    for i in 0..flags.len() {
        let start = i * size;
        let end = start + size;
        flags[i] = u8::from(code.is_code_word(&words[start..end]));
    }
}

// Corrects each word by its own flags, if lengths fit.
fn correct_words(code: &BinaryBch, words: &mut [u8], erasures: &[u8], corrected: &mut [u16]) -> u32
    ensures { CorrectsWordsOfBits (byte_times code.now.code.field) code.now.code.root code.now.code.word_length
        (code.now.code.word_length - code.now.code.dimension) erasures.now words.old corrected.old words.new corrected.new result }
{
    let size = code.word_length();
    if words.len() % size != 0 || corrected.len() != words.len() / size {
        return status::LENGTH;
    }
    if erasures.len() != 0 && erasures.len() != words.len() {
        return status::LENGTH;
    }
    write_corrected(code, words, erasures, corrected);
    status::OK
}

// Corrects each word by its own flags, and writes how many bits of each changed.
fn write_corrected(code: &BinaryBch, words: &mut [u8], erasures: &[u8], corrected: &mut [u16])
    requires { length corrected.old ≡ length words.old / code.now.code.word_length }
    ensures long { length corrected.new ≡ length corrected.old }
    ensures words { AreCorrectedTo code.now.code.word_length (IsMeantBitsBy (byte_times code.now.code.field) code.now.code.root
        code.now.code.word_length (code.now.code.word_length - code.now.code.dimension)) (length corrected.old) erasures.now words.old
        words.new corrected.new }
{
    let size = code.word_length();
    for i in 0..corrected.len() {
        let start = i * size;
        let end = start + size;
        let from = start.min(erasures.len());
        let to = end.min(erasures.len());
        corrected[i] = correct_word(code, &mut words[start..end], &erasures[from..to]);
    }
}

// Corrects a word, and says how many bits changed; 65535 is no such number, since a word has at most 255.
fn correct_word(code: &BinaryBch, word: &mut [u8], flags: &[u8]) -> u16
    requires long { length word.old ≡ code.now.code.word_length }
    requires few { length flags.now ≤ code.now.code.word_length }
    ensures long { length word.new ≡ length word.old }
    ensures corrected { IsCorrectedTo (IsMeantBitsBy (byte_times code.now.code.field) code.now.code.root code.now.code.word_length
        (code.now.code.word_length - code.now.code.dimension) flags.now word.old) code.now.code.word_length word.old word.new result }
{
    let mut places = [0; 256];
    let count = list_places(flags, &mut places);
    match code.correct(word, &places[..count]) {
        Ok(corrected) => corrected.count as u16,
        Err(_) => NOT_CORRECTED,
    }
}
