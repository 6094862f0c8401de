// The generator polynomial of a code over any field, and encoding by it.
ghost use Rattle.std.specs.Prelude.{◌≡◌, ◌+◌, ◌-◌, ◌<◌, ◌≤◌, ◌^◌, ℕ, length, slice_index, bit_xor};
ghost use Rattle.error_codes.specs.Correcting.{HasRoots};
ghost use Rattle.error_codes.specs.FieldCodes.{IsGenerator};

use crate::field_code::{FieldCode, power_of};
use crate::symbols::SymbolField;

// The coefficients of a polynomial times x + root, the highest first, in the place of its own. Behind those of its degree there are zeros.
fn multiply_by_root<F: SymbolField>(field: F, coefficients: &mut [u16], degree: usize, root: u16)
    requires room { degree + 1 < length coefficients.old }
    requires zeros { (j : ℕ) → degree < j → slice_index coefficients.old j ≡ 0 }
    ensures long { length coefficients.new ≡ length coefficients.old }
    ensures first { slice_index coefficients.new 0 ≡ slice_index coefficients.old 0 }
    ensures next { (j : ℕ) → j + 1 < length coefficients.old → slice_index coefficients.new (j + 1)
        ≡ bit_xor (slice_index coefficients.old (j + 1)) (F.product field root (slice_index coefficients.old j)) }
{
    for k in 0..degree + 1 {
        let j = degree - k;
        coefficients[j + 1] = coefficients[j + 1] ^ field.multiply(root, coefficients[j]);
    }
}

// The symbol at a place, or 0 behind the word.
#[inline]
fn symbol_or_zero(word: &[u16], i: usize) -> u16
    ensures { result ≡ slice_index word.now i }
{
    if i < word.len() { word[i] } else { 0 }
}

// Writes zeros from a place on.
pub(crate) fn clear_from(word: &mut [u16], start: usize)
    requires { start ≤ length word.old }
    ensures long { length word.new ≡ length word.old }
    ensures kept { (i : ℕ) → i < start → slice_index word.new i ≡ slice_index word.old i }
    ensures cleared { (i : ℕ) → start ≤ i → slice_index word.new i ≡ 0 }
{
    for i in start..word.len() {
        word[i] = 0;
    }
}

// The rest of division by the generator polynomial, which stands in a word from a place on, a symbol of data further: the coefficients move
// up by one, and a multiple of the generator polynomial takes the highest away.
fn shift_rest<F: SymbolField>(
    field: F,
    word: &mut [u16],
    start: usize,
    generator: &[u16],
    symbol: u16,
)
    requires room { start < length word.old }
    requires whole { start + length generator.now ≡ length word.old + 1 }
    ensures long { length word.new ≡ length word.old }
    ensures kept { (i : ℕ) → i < start → slice_index word.new i ≡ slice_index word.old i }
    ensures shifted { (j : ℕ) → start + j < length word.old → slice_index word.new (start + j)
        ≡ bit_xor (slice_index word.old (start + (j + 1)))
        (F.product field (bit_xor symbol (slice_index word.old start)) (slice_index generator.now (j + 1))) }
{
    let factor = symbol ^ word[start];
    for j in 0..word.len() - start {
        word[start + j] = symbol_or_zero(word, start + j + 1)
            ^ field.multiply(factor, generator[j + 1]);
    }
}

impl<F: SymbolField> FieldCode<F> {
    /// Writes the coefficients of the generator polynomial, the product of x + p over the roots p, the highest first. There has to be room for
    /// one more than the code has roots. What stood there is not read.
    pub fn write_generator(&self, generator: &mut [u16])
        requires { length generator.old ≡ self.now.word_length - self.now.dimension + 1 }
        ensures { IsGenerator (F.product self.now.field) self.now.root self.now.first_root
            (self.now.word_length - self.now.dimension) generator.new }
    {
        clear_from(generator, 0);
        generator[0] = 1;
        let mut x = power_of(self.field, self.root, self.first_root);
        for m in 0..self.word_length - self.dimension {
            multiply_by_root(self.field, generator, m, x);
            x = self.field.multiply(x, self.root);
        }
    }

    /// Writes the symbols behind the data, so that the polynomial of the word is 0 at every root, by the polynomial that `write_generator`
    /// writes. The symbols behind the data are elements. What stood there is not read.
    pub fn encode(&self, generator: &[u16], word: &mut [u16])
        requires whole { length word.old ≡ self.now.word_length }
        requires generates { IsGenerator (F.product self.now.field) self.now.root self.now.first_root
            (self.now.word_length - self.now.dimension) generator.now }
        ensures long { length word.new ≡ length word.old }
        ensures kept { (i : ℕ) → i < self.now.dimension → slice_index word.new i ≡ slice_index word.old i }
        ensures elements { (j : ℕ) → slice_index word.new (self.now.dimension + j) < 2 ^ F.width self.now.field }
        ensures encoded { HasRoots (F.product self.now.field) self.now.root self.now.first_root
            (self.now.word_length - self.now.dimension) word.new }
    {
        clear_from(word, self.dimension);
        for i in 0..self.dimension {
            let symbol = word[i];
            shift_rest(self.field, word, self.dimension, generator, symbol);
        }
    }
}
