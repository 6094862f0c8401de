// The code: its field, its length, and its roots.
ghost use Rattle.std.specs.Prelude.{◌≡◌, ◌≢◌, ◌+◌, ◌-◌, ◌<◌, ◌≤◌, ◌↔◌, ℕ, length, slice_index, IsTrue, IsOk, IfOk};
ghost use Rattle.std.specs.Prelude.{IfErr};
ghost use Rattle.field_base.specs.Powers.{power};
ghost use Rattle.reed_solomon.specs.ByteFields.{byte_generator, byte_times};
ghost use Rattle.error_codes.specs.Checks.{AreScaled};
ghost use Rattle.error_codes.specs.Correcting.{HasOrder, HasRoots, code_value};
ghost use Rattle.error_codes.specs.Generators.{power_point, power_scale};
ghost use Rattle.error_codes.specs.declared.error.CodeError.TheVariants.{NoSymbols, RepeatedPoints, TooLong};

use crate::encoder::generator_polynomial;
use crate::error::CodeError;
use crate::field_code::has_order;
use crate::field_code::values::evaluate;
use crate::symbols::{narrow, widen};
use reed_solomon::byte_field::{ByteField, generator, multiply, power_of};

/// A Reed-Solomon code over bytes that corrects errors: words of `word_length` symbols, the first `dimension` of them
/// data. The first symbol is the coefficient of the highest power, and the polynomials of code words are 0 at
/// root^first_root, root^(first_root + 1), .., one root for each symbol that is not data. No call takes memory.
#[derive(Clone, Copy)]
pub struct CorrectingCode {
    pub(crate) field: ByteField,
    pub(crate) word_length: usize,
    pub(crate) dimension: usize,
    pub(crate) root: u8,
    pub(crate) first_root: usize,
    pub(crate) roots: [u8; 256],
    pub(crate) generator: [u8; 256],
    ghost some_data: { 0 < dimension },
    ghost some_checks: { dimension < word_length },
    ghost short: { word_length ≤ 255 },
    ghost scaled: { AreScaled 8 word_length (power_point (byte_times field) root)
        (power_scale (byte_times field) root first_root) },
    ghost roots_are: { (m : ℕ) → m < word_length - dimension
        → slice_index roots m ≡ power 1 (byte_times field) root (first_root + m) },
    ghost monic: { slice_index generator 0 ≡ 1 },
    ghost zeros: { (m : ℕ) → m < word_length - dimension
        → code_value (byte_times field) (word_length - dimension + 1) (slice_index generator) (slice_index roots m)
        ≡ 0 },
}

impl CorrectingCode {
    /// The code over a field with words of so many symbols, at most 255, of which so many are data. Its roots are the
    /// powers root_step (first_root + m) of the field's generator, with m below the number of the other symbols. The
    /// error is the first that applies; points repeat where the order of the power root_step is below the length.
    pub fn new(
        field: ByteField,
        word_length: usize,
        dimension: usize,
        first_root: usize,
        root_step: usize,
    ) -> Result<CorrectingCode, CodeError>
        ensures accepted { let root = power 1 (byte_times field) (byte_generator field) root_step in
            IsOk result ↔ ((0 < dimension) × (dimension < word_length) × (word_length ≤ 255)
            × HasOrder (byte_times field) root word_length) }
        ensures made { IfOk result (λ code. (code.field ≡ field) × (code.word_length ≡ word_length)
            × (code.dimension ≡ dimension) × (code.first_root ≡ first_root)
            × (code.root ≡ power 1 (byte_times field) (byte_generator field) root_step)) }
        ensures no_symbols { IfErr result (λ error. dimension ≡ 0 → error ≡ NoSymbols) }
        ensures no_checks { IfErr result (λ error. word_length ≤ dimension → error ≡ NoSymbols) }
        ensures long { IfErr result (λ error. 0 < dimension → dimension < word_length → 255 < word_length
            → error ≡ TooLong) }
        ensures repeated { IfErr result (λ error. 0 < dimension → dimension < word_length → word_length ≤ 255
            → error ≡ RepeatedPoints) }
    {
        if dimension == 0 || dimension >= word_length {
            return Err(CodeError::NoSymbols);
        }
        if word_length > 255 {
            return Err(CodeError::TooLong);
        }
        let root = power_of(field, generator(field), root_step);
        if !has_order(field, root as u16, word_length) {
            return Err(CodeError::RepeatedPoints);
        }
        let checks = word_length - dimension;
        let first = power_of(field, root, first_root);
        let roots = rising_powers(field, first, root, checks);
        let generator = generator_polynomial(field, &roots, checks);
        Ok(CorrectingCode {
            field,
            word_length,
            dimension,
            root,
            first_root,
            roots,
            generator,
        })
    }

    /// How many symbols a word has.
    pub fn word_length(&self) -> usize
        ensures { result ≡ self.now.word_length }
    {
        self.word_length
    }

    /// How many symbols of a word are data.
    pub fn dimension(&self) -> usize
        ensures { result ≡ self.now.dimension }
    {
        self.dimension
    }

    /// The value at root m of the polynomial whose coefficients are the symbols of a word, for each root, and zeros
    /// behind them.
    pub fn syndromes(&self, word: &[u8]) -> [u8; 256]
        requires { length word.now ≡ self.now.word_length }
        ensures values { (m : ℕ) → m < self.now.word_length - self.now.dimension
            → slice_index result m ≡ code_value (byte_times self.now.field) (length word.now) (slice_index word.now)
            (power 1 (byte_times self.now.field) self.now.root (self.now.first_root + m)) }
        ensures zeros { (m : ℕ) → self.now.word_length - self.now.dimension ≤ m → slice_index result m ≡ 0 }
    {
        let checks = self.word_length - self.dimension;
        let mut symbols = [0; 255];
        let own = &mut symbols[..self.word_length];
        widen(word, own);
        let mut points = [0; 255];
        let found = &mut points[..checks];
        widen(&self.roots[..checks], found);
        evaluate(self.field, own, found);
        let mut values = [0; 256];
        narrow(found, &mut values[..checks]);
        values
    }

    /// Whether a word has the code's length, and the polynomial whose coefficients are its symbols is 0 at every root.
    pub fn is_code_word(&self, word: &[u8]) -> bool
        ensures { IsTrue result ↔ ((length word.now ≡ self.now.word_length)
            × HasRoots (byte_times self.now.field) self.now.root self.now.first_root
            (self.now.word_length - self.now.dimension) word.now) }
    {
        if word.len() != self.word_length {
            return false;
        }
        let values = self.syndromes(word);
        for m in 0..self.word_length - self.dimension {
            if values[m] != 0 {
                return false;
            }
        }
        true
    }
}

// first, first base, first base^2, ..
fn rising_powers(field: ByteField, first: u8, base: u8, count: usize) -> [u8; 256]
    requires { count ≤ 256 }
    ensures { (m : ℕ) → m < count → slice_index result m ≡ byte_times field first (power 1 (byte_times field) base m) }
{
    let mut powers = [0; 256];
    let mut next = first;
    for m in 0..count {
        powers[m] = next;
        next = multiply(field, next, base);
    }
    powers
}
