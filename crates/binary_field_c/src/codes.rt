// Calls of Reed-Solomon codes over bytes that correct errors, on words that stand one after the other or interleaved.
// Written by scripts/make_c_exports.py; do not edit.
ghost use Rattle.c_calls.specs.Codes.{CorrectsWords, EncodesWords, TellsCodeWords, WritesSyndromes};
ghost use Rattle.c_calls.specs.InterleavedCodes.{CorrectsInterleaved, EncodesInterleaved, WritesInterleavedSyndromes};

/// Writes the symbols behind the data of each word, so that it is a word of the code.
#[unsafe(no_mangle)]
pub extern "C" fn bf_code_encode(
    modulus: u64,
    symbols: u64,
    data: u64,
    first_root: u64,
    root_step: u64,
    words: &mut [u8],
) -> u32
    ensures { EncodesWords modulus symbols «data» first_root root_step words.old words.new result }
{
    c_calls::codes::encode(modulus, symbols, data, first_root, root_step, words)
}

/// The values of each word at the roots, that at the first root first; symbols - data of them a word.
#[unsafe(no_mangle)]
pub extern "C" fn bf_code_syndromes(
    modulus: u64,
    symbols: u64,
    data: u64,
    first_root: u64,
    root_step: u64,
    words: &[u8],
    syndromes: &mut [u8],
) -> u32
    ensures { WritesSyndromes modulus symbols «data» first_root root_step words.now syndromes.old syndromes.new result }
{
    c_calls::codes::syndromes(
        modulus, symbols, data, first_root, root_step, words, syndromes,
    )
}

/// 1 for each word that is one of the code, 0 for each other.
#[unsafe(no_mangle)]
pub extern "C" fn bf_code_are_words(
    modulus: u64,
    symbols: u64,
    data: u64,
    first_root: u64,
    root_step: u64,
    words: &[u8],
    flags: &mut [u8],
) -> u32
    ensures { TellsCodeWords modulus symbols «data» first_root root_step words.now flags.old flags.new result }
{
    c_calls::codes::are_words(modulus, symbols, data, first_root, root_step, words, flags)
}

/// Corrects each word, and writes how many of its symbols changed; a symbol is erased where its byte of erasures is not 0. A word becomes
/// the only word of the code from which it differs at t places beside e erased ones, with 2 * t + e at most symbols - data. Where there is
/// none it stays, and corrected is 65535.
#[unsafe(no_mangle)]
pub extern "C" fn bf_code_correct(
    modulus: u64,
    symbols: u64,
    data: u64,
    first_root: u64,
    root_step: u64,
    words: &mut [u8],
    erasures: &[u8],
    corrected: &mut [u16],
) -> u32
    ensures { CorrectsWords modulus symbols «data» first_root root_step erasures.now words.old
        corrected.old words.new corrected.new result }
{
    c_calls::codes::correct(
        modulus, symbols, data, first_root, root_step, words, erasures, corrected,
    )
}

/// The same as code_encode, of words that stand interleaved: the first symbols of all words, one after the other, then the second symbols.
#[unsafe(no_mangle)]
pub extern "C" fn bf_code_encode_interleaved(
    modulus: u64,
    symbols: u64,
    data: u64,
    first_root: u64,
    root_step: u64,
    words: &mut [u8],
) -> u32
    ensures { EncodesInterleaved modulus symbols «data» first_root root_step words.old words.new result }
{
    c_calls::interleaved_codes::encode(modulus, symbols, data, first_root, root_step, words)
}

/// The same as code_syndromes, of words that stand interleaved, whose values do too: those of all words at a root stand one after the
/// other.
#[unsafe(no_mangle)]
pub extern "C" fn bf_code_syndromes_interleaved(
    modulus: u64,
    symbols: u64,
    data: u64,
    first_root: u64,
    root_step: u64,
    words: &[u8],
    syndromes: &mut [u8],
) -> u32
    ensures { WritesInterleavedSyndromes modulus symbols «data» first_root root_step words.now syndromes.old syndromes.new result }
{
    c_calls::interleaved_codes::syndromes(
        modulus, symbols, data, first_root, root_step, words, syndromes,
    )
}

/// Corrects each word as code_correct does, of words that stand interleaved, and writes to corrected 1 for a word that it could correct,
/// or that had no error, and 0 for each other. Symbol i of every word is erased where byte i of erasures is not 0. To syndromes it writes
/// the values of the received words, as code_syndromes_interleaved does.
#[unsafe(no_mangle)]
pub extern "C" fn bf_code_correct_interleaved(
    modulus: u64,
    symbols: u64,
    data: u64,
    first_root: u64,
    root_step: u64,
    words: &mut [u8],
    erasures: &[u8],
    syndromes: &mut [u8],
    corrected: &mut [u8],
) -> u32
    ensures { CorrectsInterleaved modulus symbols «data» first_root root_step erasures.now words.old
        syndromes.old corrected.old words.new syndromes.new corrected.new result }
{
    c_calls::interleaved_codes::correct(
        modulus, symbols, data, first_root, root_step, words, erasures, syndromes, corrected,
    )
}
