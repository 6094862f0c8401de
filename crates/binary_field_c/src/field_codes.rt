// Calls of Reed-Solomon codes that correct errors over a field that the caller chooses, on words that stand one after the other.
// Written by scripts/make_c_exports.py; do not edit.
ghost use Rattle.std.specs.Prelude.{length};
ghost use Rattle.c_calls.specs.ChosenCodes.{CorrectsWordsOver, EncodesWordsOver, TellsCodeWordsOver, WritesSyndromesOver};

use c_calls::ChosenField;

/// Writes the symbols behind the data of each word, so that it is a word of the code; what stood there is not read.
#[unsafe(no_mangle)]
pub extern "C" fn bf_field_code_encode(
    field: &ChosenField,
    symbols: u64,
    data: u64,
    first_root: u64,
    root: u64,
    words: &mut [u16],
    space: &mut [u16],
) -> u32
    ensures { EncodesWordsOver field.now symbols «data» first_root root (length space.old) words.old words.new result }
{
    c_calls::field_codes::encode(*field, symbols, data, first_root, root, words, space)
}

/// The values of each word at the roots, that at the first root first; symbols - data of them a word.
#[unsafe(no_mangle)]
pub extern "C" fn bf_field_code_syndromes(
    field: &ChosenField,
    symbols: u64,
    data: u64,
    first_root: u64,
    root: u64,
    words: &[u16],
    syndromes: &mut [u16],
) -> u32
    ensures { WritesSyndromesOver field.now symbols «data» first_root root words.now syndromes.old syndromes.new result }
{
    c_calls::field_codes::syndromes(*field, symbols, data, first_root, root, words, syndromes)
}

/// 1 for each word that is one of the code, 0 for each other.
#[unsafe(no_mangle)]
pub extern "C" fn bf_field_code_are_words(
    field: &ChosenField,
    symbols: u64,
    data: u64,
    first_root: u64,
    root: u64,
    words: &[u16],
    flags: &mut [u8],
) -> u32
    ensures { TellsCodeWordsOver field.now symbols «data» first_root root words.now flags.old flags.new result }
{
    c_calls::field_codes::are_words(*field, symbols, data, first_root, root, words, flags)
}

/// Corrects each word as code_correct does, and writes how many of its symbols changed, or 65535 where it is near to no word of the code.
/// A bool is the byte 0 or 1, before the call too.
#[unsafe(no_mangle)]
pub extern "C" fn bf_field_code_correct(
    field: &ChosenField,
    symbols: u64,
    data: u64,
    first_root: u64,
    root: u64,
    words: &mut [u16],
    erasures: &[u8],
    corrected: &mut [u16],
    space: &mut [u16],
    marks: &mut [bool],
    places: &mut [usize],
) -> u32
    ensures { CorrectsWordsOver field.now symbols «data» first_root root (length space.old) (length
        marks.old) (length places.old) erasures.now words.old corrected.old words.new corrected.new
        result }
{
    c_calls::field_codes::correct(
        *field, symbols, data, first_root, root, words, erasures, corrected, space, marks, places,
    )
}
