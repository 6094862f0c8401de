// Calls of binary BCH codes, on words of bits that stand one after the other, a byte each.
// Written by scripts/make_c_exports.py; do not edit.
ghost use Rattle.c_calls.specs.BinaryCodes.{CorrectsBits, EncodesBits, TellsBinaryWords, TellsDataBits};

/// How many bits of a word are data: all but one for each root and each square of a root, of a square and so on.
#[unsafe(no_mangle)]
pub extern "C" fn bf_bch_data(
    modulus: u64,
    bits: u64,
    errors: u64,
    root_step: u64,
    data: &mut u64,
) -> u32
    ensures { TellsDataBits modulus bits errors root_step «data».old «data».new result }
{
    c_calls::binary_codes::dimension(modulus, bits, errors, root_step, data)
}

/// Writes the bits behind the data of each word, so that it is a word of the code; what stood there is not read.
#[unsafe(no_mangle)]
pub extern "C" fn bf_bch_encode(
    modulus: u64,
    bits: u64,
    errors: u64,
    root_step: u64,
    words: &mut [u8],
) -> u32
    ensures { EncodesBits modulus bits errors root_step words.old words.new result }
{
    c_calls::binary_codes::encode(modulus, bits, errors, root_step, words)
}

/// 1 for each word that is one of the code, 0 for each other; a byte above 1 is in no word.
#[unsafe(no_mangle)]
pub extern "C" fn bf_bch_are_words(
    modulus: u64,
    bits: u64,
    errors: u64,
    root_step: u64,
    words: &[u8],
    flags: &mut [u8],
) -> u32
    ensures { TellsBinaryWords modulus bits errors root_step words.now flags.old flags.new result }
{
    c_calls::binary_codes::are_words(modulus, bits, errors, root_step, words, flags)
}

/// Corrects each word, and writes how many of its bits changed; a bit is erased where its byte of erasures is not 0. A word becomes the
/// only word of the code from which it differs at t places beside e erased ones, with t + e / 2 at most errors. Where there is none it
/// stays, and corrected is 65535.
#[unsafe(no_mangle)]
pub extern "C" fn bf_bch_correct(
    modulus: u64,
    bits: u64,
    errors: u64,
    root_step: u64,
    words: &mut [u8],
    erasures: &[u8],
    corrected: &mut [u16],
) -> u32
    ensures { CorrectsBits modulus bits errors root_step erasures.now words.old corrected.old words.new corrected.new result }
{
    c_calls::binary_codes::correct(modulus, bits, errors, root_step, words, erasures, corrected)
}
