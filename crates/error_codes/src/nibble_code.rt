// Codes over the field of 16 elements. They are computed in the bytes modulo x^8 + x^4 + x^3 + x^2 + 1, of which the field is a part: a
// word of images is a code word there exactly where the word is one here, and no code word of bytes that is nearer than any other to a
// word of images has other bytes.
ghost use Rattle.std.specs.Prelude.{◌≡◌, ◌+◌, ◌-◌, ◌<◌, ◌≤◌, ◌↔◌, ℕ, List, IsTrue, IsOk, IfOk, IfErr, OnOk, OnErr, length, map};
ghost use Rattle.std.specs.Prelude.{slice_index, false, not, nat_eq};
ghost use Rattle.field_slices.specs.Marks.{marked_below};
ghost use Rattle.error_codes.specs.Correcting.{HasOrder, HasRoots};
ghost use Rattle.error_codes.specs.Filling.{is_marked};
ghost use Rattle.error_codes.specs.Nibbles.{AreNibbles, IsMeantNibbles, lowered, nibble_root, nibble_times, raised};
ghost use Rattle.reed_solomon.specs.declared.byte_field.ByteField.TheVariants.{Qr};
ghost use Rattle.error_codes.specs.declared.error.CodeError.TheVariants.{NoSymbols, RepeatedPoints, TooLong};

mod literals;

use crate::code::CorrectingCode;
use crate::correcting::Corrected;
use crate::dual_basis::bytes_fit;
use crate::error::{CodeError, TooManyErrors};
use field_base::byte_tables::entry;
use reed_solomon::byte_field::ByteField;

/// A Reed-Solomon code over the field of 16 elements modulo x^4 + x + 1 (0x13), as `CorrectingCode` is over bytes: words of
/// `word_length` symbols below 16, at most 15 of them, the first `dimension` of them data. Aztec codes have such a one, with the
/// roots 2, 2^2, .. (ISO/IEC 24778).
#[derive(Clone, Copy)]
pub struct NibbleCode {
    code: CorrectingCode,
    root_step: usize,
    ghost of_bytes: { code.field ≡ Qr },
    ghost root_is: { code.root ≡ raised (nibble_root root_step) },
}

// The image of a symbol.
#[inline]
fn image(symbol: u8) -> u8
    ensures { result ≡ raised symbol }
{
    if symbol < 16 {
        literals::IMAGES[symbol as usize]
    } else {
        2
    }
}

// Writes the images over the symbols.
fn raise(word: &mut [u8])
    ensures { word.new ≡ map raised word.old }
{
    for i in 0..word.len() {
        word[i] = image(word[i]);
    }
}

// Writes over each byte the symbol whose image it is, or 16.
fn lower(word: &mut [u8])
    ensures { word.new ≡ map lowered word.old }
{
    for i in 0..word.len() {
        word[i] = entry(&literals::SYMBOLS, word[i]);
    }
}

// Whether all symbols are elements.
fn are_symbols(word: &[u8]) -> bool
    ensures { IsTrue result ↔ AreNibbles (length word.now) word.now }
{
    for symbol in word {
        if *symbol >= 16 {
            return false;
        }
    }
    true
}

impl NibbleCode {
    /// The code with words of so many symbols, at most 15, of which so many are data. Its roots are 2^(root_step (first_root + m)), with
    /// m below the number of the other symbols. The error is the first that applies, as that of `CorrectingCode::new`.
    pub fn new(
        word_length: usize,
        dimension: usize,
        first_root: usize,
        root_step: usize,
    ) -> Result<NibbleCode, CodeError>
        ensures accepted { IsOk result ↔ ((0 < dimension) × (dimension < word_length) × (word_length ≤ 15)
            × HasOrder nibble_times (nibble_root root_step) word_length) }
        ensures made { IfOk result (λ nibbles. (nibbles.code.word_length ≡ word_length)
            × (nibbles.code.dimension ≡ dimension) × (nibbles.code.first_root ≡ first_root) × (nibbles.root_step ≡ root_step)) }
        ensures no_symbols { IfErr result (λ error. dimension ≡ 0 → error ≡ NoSymbols) }
        ensures no_checks { IfErr result (λ error. word_length ≤ dimension → error ≡ NoSymbols) }
        ensures long { IfErr result (λ error. 0 < dimension → dimension < word_length → 15 < word_length → error ≡ TooLong) }
        ensures repeated { IfErr result (λ error. 0 < dimension → dimension < word_length → word_length ≤ 15
            → error ≡ RepeatedPoints) }
    {
        if dimension == 0 || dimension >= word_length {
            return Err(CodeError::NoSymbols);
        }
        if word_length > 15 {
            return Err(CodeError::TooLong);
        }
        match CorrectingCode::new(
            ByteField::Qr,
            word_length,
            dimension,
            first_root,
            17 * (root_step % 15),
        ) {
            Ok(code) => Ok(NibbleCode { code, root_step }),
            Err(error) => Err(error),
        }
    }

    /// How many symbols a word has.
    pub fn word_length(&self) -> usize
        ensures { result ≡ self.now.code.word_length }
    {
        self.code.word_length()
    }

    /// How many symbols of a word are data.
    pub fn dimension(&self) -> usize
        ensures { result ≡ self.now.code.dimension }
    {
        self.code.dimension()
    }

    /// Whether a word has the code's length, all its symbols are below 16, and the polynomial whose coefficients they are is 0 at every
    /// root.
    pub fn is_code_word(&self, word: &[u8]) -> bool
        ensures { IsTrue result ↔ ((length word.now ≡ self.now.code.word_length) × AreNibbles (length word.now) word.now
            × HasRoots nibble_times (nibble_root self.now.root_step) self.now.code.first_root
            (self.now.code.word_length - self.now.code.dimension) word.now) }
    {
        if word.len() != self.code.word_length {
            return false;
        }
        if !are_symbols(word) {
            return false;
        }
        let mut bytes = [0; 255];
        let own = &mut bytes[..self.code.word_length];
        own.copy_from_slice(word);
        raise(own);
        self.code.is_code_word(own)
    }

    /// Writes the symbols behind the data, which have to be below 16, so that the polynomial of the word is 0 at every root. What stood
    /// there is not read.
    pub fn encode(&self, word: &mut [u8])
        requires whole { length word.old ≡ self.now.code.word_length }
        requires elements { AreNibbles self.now.code.dimension word.old }
        ensures long { length word.new ≡ length word.old }
        ensures elements { AreNibbles self.now.code.word_length word.new }
        ensures kept { (i : ℕ) → i < self.now.code.dimension → slice_index word.new i ≡ slice_index word.old i }
        ensures encoded { HasRoots nibble_times (nibble_root self.now.root_step) self.now.code.first_root
            (self.now.code.word_length - self.now.code.dimension) word.new }
    {
        let mut bytes = [0; 255];
        let own = &mut bytes[..self.code.word_length];
        own.copy_from_slice(word);
        raise(own);
        self.code.encode(own);
        bytes_fit(own);
        lower(own);
        word.copy_from_slice(own);
    }

    /// Corrects a word as `CorrectingCode::correct` does, to the only code word of symbols below 16 that it can stand for. A received
    /// symbol from 16 on is wrong, as any that differs from what was sent.
    pub fn correct(&self, word: &mut [u8], erasures: &[usize]) -> Result<Corrected, TooManyErrors>
        requires { length word.old ≡ self.now.code.word_length }
        ensures long { length word.new ≡ length word.old }
        ensures found { (sent : List ℕ) → IsMeantNibbles (nibble_root self.now.root_step) self.now.code.first_root
            self.now.code.word_length (self.now.code.word_length - self.now.code.dimension) word.old erasures.now sent
            → IsOk result × (word.new ≡ sent) }
        ensures right { OnOk result (IsMeantNibbles (nibble_root self.now.root_step) self.now.code.first_root
            self.now.code.word_length (self.now.code.word_length - self.now.code.dimension) word.old erasures.now word.new) }
        ensures kept { OnErr result (word.new ≡ word.old) }
        ensures within { IfOk result (λ corrected. (i : ℕ) → i < self.now.code.word_length
            → is_marked corrected.changed i ≡ not (nat_eq (slice_index word.old i) (slice_index word.new i))) }
        ensures behind { IfOk result (λ corrected. (i : ℕ) → self.now.code.word_length ≤ i
            → is_marked corrected.changed i ≡ false) }
        ensures count { IfOk result (λ corrected. corrected.count
            ≡ marked_below (is_marked corrected.changed) self.now.code.word_length) }
    {
        let mut bytes = [0; 255];
        let own = &mut bytes[..self.code.word_length];
        own.copy_from_slice(word);
        raise(own);
        match self.code.correct(own, erasures) {
            Ok(corrected) => {
                lower(own);
                if !are_symbols(own) {
                    return Err(TooManyErrors);
                }
                word.copy_from_slice(own);
                Ok(corrected)
            }
            Err(error) => Err(error),
        }
    }
}
