// Codes over any field of at most 65,536 elements: their roots and values.
ghost use Rattle.std.specs.Prelude.{◌≡◌, ◌≢◌, ◌+◌, ◌-◌, ◌<◌, ◌≤◌, ◌^◌, ◌↔◌, ℕ, length, slice_index, IsTrue, IsOk, IfOk, IfErr, ⊤};
ghost use Rattle.field_base.specs.Powers.{power};
ghost use Rattle.error_codes.specs.Checks.{AreScaled};
ghost use Rattle.error_codes.specs.Correcting.{HasOrder, HasRoots, code_value};
ghost use Rattle.error_codes.specs.FieldCodes.{AreSymbols};
ghost use Rattle.error_codes.specs.Generators.{power_point, power_scale};
ghost use Rattle.error_codes.specs.declared.error.CodeError.TheVariants.{NoSymbols, RepeatedPoints, TooLong};

mod correcting;
mod encoding;
mod filling;
pub(crate) mod registers;
pub(crate) mod values;

use crate::error::CodeError;
use crate::field_code::values::evaluate;
use crate::symbols::SymbolField;
use std::alloc::AllocError;

/// A Reed-Solomon code over a field of at most 65,536 elements, as `CorrectingCode` is over bytes: words of `word_length` symbols, at most
/// 65,535 of them, the first `dimension` of them data. The first symbol is the coefficient of the highest power, and the polynomials of
/// code words are 0 at root^first_root, root^(first_root + 1), .., one root for each symbol that is not data. It takes no memory, whatever
/// the length is: what calls write besides the word, the caller lends.
pub struct FieldCode<F: SymbolField> {
    pub(crate) field: F,
    pub(crate) word_length: usize,
    pub(crate) dimension: usize,
    pub(crate) root: u16,
    pub(crate) first_root: usize,
    ghost some_data: { 0 < dimension },
    ghost some_checks: { dimension < word_length },
    ghost short: { word_length ≤ 65535 },
    ghost scaled: { AreScaled (F.width field) word_length (power_point (F.product field) root)
        (power_scale (F.product field) root first_root) },
}

impl<F: SymbolField> Clone for FieldCode<F> {
    ghost is_clone = { λ x y. (y.field ≡ x.field) × (y.word_length ≡ x.word_length) × (y.dimension ≡ x.dimension)
        × (y.root ≡ x.root) × (y.first_root ≡ x.first_root) };

    ghost is_infallible = { λ _. ⊤ };

    fn clone(&self) -> Result<FieldCode<F>, AllocError> {
        Ok(FieldCode {
            field: self.field,
            word_length: self.word_length,
            dimension: self.dimension,
            root: self.root,
            first_root: self.first_root,
        })
    }
}

impl<F: SymbolField> Copy for FieldCode<F> {}

impl<F: SymbolField> FieldCode<F> {
    /// The code over a field with words of so many symbols, at most 65,535, of which so many are data. Its roots are the powers
    /// first_root + m of the root, with m below the number of the other symbols. The error is the first that applies; points repeat where the
    /// root is 0 or no element, or its order is below the length.
    pub fn new(
        field: F,
        word_length: usize,
        dimension: usize,
        first_root: usize,
        root: u16,
    ) -> Result<FieldCode<F>, CodeError>
        ensures accepted { IsOk result ↔ ((0 < dimension) × (dimension < word_length) × (word_length ≤ 65535)
            × (root < 2 ^ F.width field) × (root ≢ 0) × HasOrder (F.product field) root word_length) }
        ensures made { IfOk result (λ code. (code.field ≡ field) × (code.word_length ≡ word_length)
            × (code.dimension ≡ dimension) × (code.first_root ≡ first_root) × (code.root ≡ root)) }
        ensures no_symbols { IfErr result (λ error. dimension ≡ 0 → error ≡ NoSymbols) }
        ensures no_checks { IfErr result (λ error. word_length ≤ dimension → error ≡ NoSymbols) }
        ensures long { IfErr result (λ error. 0 < dimension → dimension < word_length → 65535 < word_length → error ≡ TooLong) }
        ensures repeated { IfErr result (λ error. 0 < dimension → dimension < word_length → word_length ≤ 65535
            → error ≡ RepeatedPoints) }
    {
        if dimension == 0 || dimension >= word_length {
            return Err(CodeError::NoSymbols);
        }
        if word_length > 65_535 {
            return Err(CodeError::TooLong);
        }
        if !is_root(field, root, word_length) {
            return Err(CodeError::RepeatedPoints);
        }
        Ok(FieldCode {
            field,
            word_length,
            dimension,
            root,
            first_root,
        })
    }

    /// How many symbols a word has.
    pub fn word_length(&self) -> usize
        ensures { result ≡ self.now.word_length }
    {
        self.word_length
    }

    /// How many symbols of a word are data.
    pub fn dimension(&self) -> usize
        ensures { result ≡ self.now.dimension }
    {
        self.dimension
    }

    /// Whether all symbols are elements of the field.
    pub fn are_elements(&self, word: &[u16]) -> bool
        ensures { IsTrue result ↔ AreSymbols (F.width self.now.field) (length word.now) word.now }
    {
        for symbol in word {
            if !self.field.is_element(*symbol) {
                return false;
            }
        }
        true
    }

    /// Writes the value at root m of the polynomial whose coefficients are the symbols of a word, for each root. There has to be room for a
    /// value for each root. What stood in `values` is not read.
    pub fn syndromes(&self, word: &[u16], values: &mut [u16])
        requires whole { length word.now ≡ self.now.word_length }
        requires room { length values.old ≡ self.now.word_length - self.now.dimension }
        ensures long { length values.new ≡ length values.old }
        ensures values { (m : ℕ) → m < self.now.word_length - self.now.dimension
            → slice_index values.new m ≡ code_value (F.product self.now.field) (length word.now) (slice_index word.now)
            (power 1 (F.product self.now.field) self.now.root (self.now.first_root + m)) }
    {
        self.write_roots(values);
        evaluate(self.field, word, values);
    }

    // Writes the roots, as many as there is room for.
    fn write_roots(&self, roots: &mut [u16])
        ensures long { length roots.new ≡ length roots.old }
        ensures roots { (m : ℕ) → m < length roots.old
            → slice_index roots.new m ≡ power 1 (F.product self.now.field) self.now.root (self.now.first_root + m) }
    {
        let mut x = power_of(self.field, self.root, self.first_root);
        for m in 0..roots.len() {
            roots[m] = x;
            x = self.field.multiply(x, self.root);
        }
    }

    /// Whether a word has the code's length, all its symbols are elements, and the polynomial whose coefficients they are is 0 at every root.
    pub fn is_code_word(&self, word: &[u16]) -> bool
        ensures { IsTrue result ↔ ((length word.now ≡ self.now.word_length)
            × AreSymbols (F.width self.now.field) (length word.now) word.now
            × HasRoots (F.product self.now.field) self.now.root self.now.first_root
            (self.now.word_length - self.now.dimension) word.now) }
    {
        if word.len() != self.word_length {
            return false;
        }
        if !self.are_elements(word) {
            return false;
        }
        let mut x = power_of(self.field, self.root, self.first_root);
        for _m in 0..self.word_length - self.dimension {
            let value = value_at(self.field, word, x);
            if value != 0 {
                return false;
            }
            x = self.field.multiply(x, self.root);
        }
        true
    }
}

// Whether the powers of an element other than 0 with exponents below `count` differ.
fn is_root<F: SymbolField>(field: F, root: u16, count: usize) -> bool
    requires { 0 < count }
    ensures { IsTrue result ↔ ((root < 2 ^ F.width field) × (root ≢ 0) × HasOrder (F.product field) root count) }
{
    if root == 0 {
        return false;
    }
    if !field.is_element(root) {
        return false;
    }
    has_order(field, root, count)
}

// Whether no power with an exponent from 1 to `count` - 1 is 1.
pub(crate) fn has_order<F: SymbolField>(field: F, root: u16, count: usize) -> bool
    requires { 0 < count }
    ensures { IsTrue result ↔ HasOrder (F.product field) root count }
{
    let mut next = 1;
    for _d in 0..count - 1 {
        next = field.multiply(next, root);
        if next == 1 {
            return false;
        }
    }
    true
}

// An element to the power of any exponent, by squares.
pub(crate) fn power_of<F: SymbolField>(field: F, a: u16, exponent: usize) -> u16
    ensures { result ≡ power 1 (F.product field) a exponent }
{
    let mut base = a;
    let mut rest = exponent;
    let mut value = 1;
    while rest != 0 {
        if rest % 2 == 1 {
            value = field.multiply(value, base);
        }
        base = field.multiply(base, base);
        rest /= 2;
    }
    value
}

// The value at x of the polynomial whose coefficients are the symbols, the first that of the highest power. A symbol is read by the bits of
// the field, so that the last product reduces what is left of the last symbol.
fn value_at<F: SymbolField>(field: F, word: &[u16], x: u16) -> u16
    ensures { result ≡ code_value (F.product field) (length word.now) (slice_index word.now) x }
{
    let mut value = 0;
    for symbol in word {
        value = field.multiply(value, x) ^ *symbol;
    }
    field.multiply(value, 1)
}
