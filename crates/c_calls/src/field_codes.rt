// Reed-Solomon codes that correct errors over fields of at most 65,536 elements, which the caller chooses, on words of symbols of 16 bits that
// stand one after the other. A code is named by the words of its field and the numbers that `FieldCode::new` takes. What a call works in the
// caller lends; nothing is said of what is left there.
ghost use Rattle.std.specs.Prelude.{◌≡◌, ◌≢◌, ◌+◌, ◌-◌, ◌*◌, ◌/◌, ◌≤◌, ◌↔◌, IfErr, IfOk, IsTrue, length};
ghost use Rattle.any_field.specs.Contexts.{field_product};
ghost use Rattle.error_codes.specs.FieldCodes.{AreSymbols, IsGenerator};
ghost use Rattle.c_calls.specs.ChosenCodes.{AreDataSymbols, AreEncodedSymbols, CorrectsSymbols, CorrectsWordsOver, EncodesSymbols};
ghost use Rattle.c_calls.specs.ChosenCodes.{EncodesWordsOver, HasCodeOver, TellsCodeWordsOver, TellsSymbolWords, WritesSymbolSyndromes};
ghost use Rattle.c_calls.specs.ChosenCodes.{WritesSyndromesOver};
ghost use Rattle.c_calls.specs.ChosenFields.{NamesAField};
ghost use Rattle.c_calls.specs.Codes.{AreCorrectedTo, AreSyndromes, IsCorrectedTo, IsMeantByIn, TellWords};
ghost use Rattle.c_calls.specs.Fields.{wide_number};
ghost use Rattle.c_calls.specs.declared.status.TheConstants.{CODE, REDUCIBLE};

use crate::chosen_words::field_of_words;
use crate::codes::{NOT_CORRECTED, list_places};
use crate::field_words::ChosenField;
use crate::shapes::has_shape;
use crate::status;
use error_codes::{FieldCode, SymbolField, WordField};

/// Writes the symbols of each word behind its data, so that it is a word of the code. `REDUCIBLE` says that the words name no field, `CODE`
/// that there is no such code, then `LENGTH` that there are no whole words, or not one number of space more than a word has symbols behind
/// its data, and `NOT_AN_ELEMENT` that a symbol of data is none. What stands behind the data is not read.
pub fn encode(
    field: ChosenField,
    word_length: u64,
    dimension: u64,
    first_root: u64,
    root: u64,
    words: &mut [u16],
    space: &mut [u16],
) -> u32
    ensures { EncodesWordsOver field word_length dimension first_root root (length space.old) words.old words.new result }
{
    match code_over(field, word_length, dimension, first_root, root) {
        Err(refused) => refused,
        Ok(code) => encode_words(&code, words, space),
    }
}

/// Writes the values of each word at the roots of the code, those of a word one after the other. `REDUCIBLE` says that the words name no
/// field, `CODE` that there is no such code, then `LENGTH` that there are no whole words, or not as many values as they have, and
/// `NOT_AN_ELEMENT` that a symbol is none.
pub fn syndromes(
    field: ChosenField,
    word_length: u64,
    dimension: u64,
    first_root: u64,
    root: u64,
    words: &[u16],
    values: &mut [u16],
) -> u32
    ensures { WritesSyndromesOver field word_length dimension first_root root words.now values.old values.new result }
{
    match code_over(field, word_length, dimension, first_root, root) {
        Err(refused) => refused,
        Ok(code) => write_syndromes(&code, words, values),
    }
}

/// Writes for each word 1 where it is a word of the code, else 0. `REDUCIBLE` says that the words name no field, `CODE` that there is no such
/// code, then `LENGTH` that there are no whole words, or not as many flags, and `NOT_AN_ELEMENT` that a symbol is none.
pub fn are_words(
    field: ChosenField,
    word_length: u64,
    dimension: u64,
    first_root: u64,
    root: u64,
    words: &[u16],
    flags: &mut [u8],
) -> u32
    ensures { TellsCodeWordsOver field word_length dimension first_root root words.now flags.old flags.new result }
{
    match code_over(field, word_length, dimension, first_root, root) {
        Err(refused) => refused,
        Ok(code) => write_flags(&code, words, flags),
    }
}

/// Corrects each word in place, and writes how many of its symbols changed, as `codes::correct` does. `REDUCIBLE` says that the words name no
/// field, `CODE` that there is no such code, then `LENGTH` that there are no whole words, not one number for each of them, flags but not one
/// for each symbol, or not this to work in: with n symbols a word, m of them behind the data, 2 n + 5 m + 3 numbers, 2 n marks and n places.
/// `NOT_AN_ELEMENT` says that a symbol is none.
pub fn correct(
    field: ChosenField,
    word_length: u64,
    dimension: u64,
    first_root: u64,
    root: u64,
    words: &mut [u16],
    erasures: &[u8],
    corrected: &mut [u16],
    space: &mut [u16],
    marks: &mut [bool],
    places: &mut [usize],
) -> u32
    ensures { CorrectsWordsOver field word_length dimension first_root root (length space.old) (length marks.old) (length places.old)
        erasures.now words.old corrected.old words.new corrected.new result }
{
    match code_over(field, word_length, dimension, first_root, root) {
        Err(refused) => refused,
        Ok(code) => correct_words(&code, words, erasures, corrected, space, marks, places),
    }
}

// The code with these numbers over the field of the words, or the status that says why there is none.
fn code_over(
    field: ChosenField,
    word_length: u64,
    dimension: u64,
    first_root: u64,
    root: u64,
) -> Result<FieldCode<WordField>, u32>
    ensures made { IfOk result (λ code. NamesAField field × HasCodeOver field.degree (wide_number field.tail) word_length dimension root
        × (code.field.field.degree ≡ field.degree) × (code.field.field.tail ≡ wide_number field.tail) × (code.word_length ≡ word_length)
        × (code.dimension ≡ dimension) × (code.first_root ≡ first_root) × (code.root ≡ root)) }
    ensures refused { IfErr result (λ status. (¬ NamesAField field → status ≡ REDUCIBLE)
        × (NamesAField field → (status ≡ CODE) × ¬ HasCodeOver field.degree (wide_number field.tail) word_length dimension root)) }
{
    let Some(found) = field_of_words(field) else {
        return Err(status::REDUCIBLE);
    };
    if root > 65_535 {
        return Err(status::CODE);
    }
    let Ok(symbols) = WordField::new(found) else {
        return Err(status::CODE);
    };
    match FieldCode::new(
        symbols,
        word_length as usize,
        dimension as usize,
        first_root as usize,
        root as u16,
    ) {
        Ok(code) => Ok(code),
        Err(_) => Err(status::CODE),
    }
}

// Encodes each word, if lengths and symbols fit.
fn encode_words<F: SymbolField>(code: &FieldCode<F>, words: &mut [u16], space: &mut [u16]) -> u32
    ensures { EncodesSymbols (F.width code.now.field) (F.product code.now.field) code.now.word_length code.now.dimension
        code.now.first_root code.now.root (length space.old) words.old words.new result }
{
    let size = code.word_length();
    if words.len() % size != 0 || space.len() != size - code.dimension() + 1 {
        return status::LENGTH;
    }
    if !data_are_elements(code, words) {
        return status::NOT_AN_ELEMENT;
    }
    code.write_generator(space);
    write_words(code, space, words);
    status::OK
}

// Whether the data of each word are elements.
fn data_are_elements<F: SymbolField>(code: &FieldCode<F>, words: &[u16]) -> bool
    ensures { IsTrue result ↔ AreDataSymbols (F.width code.now.field) code.now.word_length code.now.dimension
        (length words.now / code.now.word_length) words.now }
{
    let size = code.word_length();
    for i in 0..words.len() / size {
        let start = i * size;
        let end = start + code.dimension();
        if !code.are_elements(&words[start..end]) {
            return false;
        }
    }
    true
}

// Encodes each word by the generator polynomial.
fn write_words<F: SymbolField>(code: &FieldCode<F>, generator: &[u16], words: &mut [u16])
    requires generates { IsGenerator (F.product code.now.field) code.now.root code.now.first_root
        (code.now.word_length - code.now.dimension) generator.now }
    requires elements { AreDataSymbols (F.width code.now.field) code.now.word_length code.now.dimension
        (length words.old / code.now.word_length) words.old }
    ensures { AreEncodedSymbols (F.width code.now.field) (F.product code.now.field) code.now.word_length code.now.dimension
        code.now.first_root code.now.root (length words.old / code.now.word_length) words.old words.new }
{
    let size = code.word_length();
    for i in 0..words.len() / size {
        let start = i * size;
        let end = start + size;
        code.encode(generator, &mut words[start..end]);
    }
}

// Writes the values of each word at the roots, if lengths and symbols fit.
fn write_syndromes<F: SymbolField>(code: &FieldCode<F>, words: &[u16], values: &mut [u16]) -> u32
    ensures { WritesSymbolSyndromes (F.width code.now.field) (F.product code.now.field) code.now.word_length code.now.dimension
        code.now.first_root code.now.root words.now values.old values.new result }
{
    let count = words.len() / code.word_length();
    let checks = code.word_length() - code.dimension();
    if words.len() % code.word_length() != 0 || !has_shape(values.len(), count, checks) {
        return status::LENGTH;
    }
    if !code.are_elements(words) {
        return status::NOT_AN_ELEMENT;
    }
    write_values(code, words, values);
    status::OK
}

// Writes the values of each word at the roots.
fn write_values<F: SymbolField>(code: &FieldCode<F>, words: &[u16], values: &mut [u16])
    requires { length values.old ≡ length words.now / code.now.word_length * (code.now.word_length - code.now.dimension) }
    ensures long { length values.new ≡ length values.old }
    ensures values { AreSyndromes code.now.word_length (F.product code.now.field) code.now.root code.now.first_root
        (code.now.word_length - code.now.dimension) (length words.now / code.now.word_length) words.now values.new }
{
    let size = code.word_length();
    let checks = size - code.dimension();
    for i in 0..words.len() / size {
        let start = i * size;
        let end = start + size;
        let from = i * checks;
        let to = from + checks;
        code.syndromes(&words[start..end], &mut values[from..to]);
    }
}

// Writes for each word whether it is one of the code, if lengths and symbols fit.
fn write_flags<F: SymbolField>(code: &FieldCode<F>, words: &[u16], flags: &mut [u8]) -> u32
    ensures { TellsSymbolWords (F.width code.now.field) (F.product code.now.field) code.now.word_length code.now.dimension
        code.now.first_root code.now.root words.now flags.old flags.new result }
{
    let size = code.word_length();
    if words.len() % size != 0 || flags.len() != words.len() / size {
        return status::LENGTH;
    }
    if !code.are_elements(words) {
        return status::NOT_AN_ELEMENT;
    }
    write_answers(code, words, flags);
    status::OK
}

// Writes for each word whether it is one of the code.
fn write_answers<F: SymbolField>(code: &FieldCode<F>, words: &[u16], flags: &mut [u8])
    requires long { length flags.old ≡ length words.now / code.now.word_length }
    requires elements { AreSymbols (F.width code.now.field) (length words.now) words.now }
    ensures long { length flags.new ≡ length flags.old }
    ensures flags { TellWords code.now.word_length (F.product code.now.field) code.now.root code.now.first_root
        (code.now.word_length - code.now.dimension) (length flags.old) words.now flags.new }
{
    let size = code.word_length();
    for i in 0..flags.len() {
        let start = i * size;
        let end = start + size;
        flags[i] = u8::from(code.is_code_word(&words[start..end]));
    }
}

// Corrects each word by its own flags, if lengths and symbols fit.
fn correct_words<F: SymbolField>(
    code: &FieldCode<F>,
    words: &mut [u16],
    erasures: &[u8],
    corrected: &mut [u16],
    space: &mut [u16],
    marks: &mut [bool],
    places: &mut [usize],
) -> u32
    ensures { CorrectsSymbols (F.width code.now.field) (F.product code.now.field) code.now.word_length code.now.dimension
        code.now.first_root code.now.root (length space.old) (length marks.old) (length places.old) erasures.now words.old corrected.old
        words.new corrected.new result }
{
    let size = code.word_length();
    if words.len() % size != 0 || corrected.len() != words.len() / size {
        return status::LENGTH;
    }
    if erasures.len() != 0 && erasures.len() != words.len() {
        return status::LENGTH;
    }
    if space.len() != code.room() || marks.len() != 2 * size || places.len() != size {
        return status::LENGTH;
    }
    if !code.are_elements(words) {
        return status::NOT_AN_ELEMENT;
    }
    write_corrected(code, words, erasures, corrected, space, marks, places);
    status::OK
}

// Corrects each word, and writes how many symbols of each changed.
fn write_corrected<F: SymbolField>(
    code: &FieldCode<F>,
    words: &mut [u16],
    erasures: &[u8],
    corrected: &mut [u16],
    space: &mut [u16],
    marks: &mut [bool],
    places: &mut [usize],
)
    requires counts { length corrected.old ≡ length words.old / code.now.word_length }
    requires elements { AreSymbols (F.width code.now.field) (length words.old) words.old }
    requires space { length space.old ≡ 2 * code.now.word_length + 5 * (code.now.word_length - code.now.dimension) + 3 }
    requires marks { length marks.old ≡ 2 * code.now.word_length }
    requires places { length places.old ≡ code.now.word_length }
    ensures long { length corrected.new ≡ length corrected.old }
    ensures words { AreCorrectedTo code.now.word_length (IsMeantByIn (F.width code.now.field) (F.product code.now.field) code.now.root
        code.now.first_root code.now.word_length (code.now.word_length - code.now.dimension)) (length corrected.old) erasures.now
        words.old words.new corrected.new }
{
    let size = code.word_length();
    for i in 0..corrected.len() {
        let start = i * size;
        let end = start + size;
        let from = start.min(erasures.len());
        let to = end.min(erasures.len());
        corrected[i] = correct_word(
            code,
            &mut words[start..end],
            &erasures[from..to],
            space,
            marks,
            places,
        );
    }
}

// Corrects a word, and says how many symbols changed; 65535 is no such number, since no more change than are behind the data.
fn correct_word<F: SymbolField>(
    code: &FieldCode<F>,
    word: &mut [u16],
    flags: &[u8],
    space: &mut [u16],
    marks: &mut [bool],
    places: &mut [usize],
) -> u16
    requires long { length word.old ≡ code.now.word_length }
    requires elements { AreSymbols (F.width code.now.field) code.now.word_length word.old }
    requires few { length flags.now ≤ code.now.word_length }
    requires space { length space.old ≡ 2 * code.now.word_length + 5 * (code.now.word_length - code.now.dimension) + 3 }
    requires marks { length marks.old ≡ 2 * code.now.word_length }
    requires places { length places.old ≡ code.now.word_length }
    ensures long { length word.new ≡ length word.old }
    ensures space { length space.new ≡ length space.old }
    ensures marks { length marks.new ≡ length marks.old }
    ensures places { length places.new ≡ length places.old }
    ensures corrected { IsCorrectedTo (IsMeantByIn (F.width code.now.field) (F.product code.now.field) code.now.root code.now.first_root
        code.now.word_length (code.now.word_length - code.now.dimension) flags.now word.old) code.now.word_length word.old word.new result }
{
    let count = list_places(flags, places);
    let (erased, changed) = marks.split_at_mut(code.word_length());
    match code.correct(word, &places[..count], space, erased, changed) {
        Ok(corrected) => corrected as u16,
        Err(_) => NOT_CORRECTED,
    }
}
