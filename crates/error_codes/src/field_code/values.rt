// Values of a polynomial at many points, by Horner's rule. A symbol is read by the bits of the field. The products for one point wait for
// each other, and those for eight do not.
ghost use Rattle.std.specs.Prelude.{◌≡◌, ◌+◌, ◌-◌, ◌<◌, ◌≤◌, ℕ, length, slice_index, bit_xor};
ghost use Rattle.field_base.specs.Powers.{power};
ghost use Rattle.error_codes.specs.Correcting.{code_value};
ghost use Rattle.error_codes.specs.FieldCodes.{AreFallingPoints};

use crate::field_code::{FieldCode, power_of};
use crate::symbols::SymbolField;

// One symbol more for each of eight values: the value so far times its point, and the symbol.
#[inline]
fn add_symbol<F: SymbolField>(field: F, values: &mut [u16; 8], points: &[u16; 8], symbol: u16)
    ensures { (k : ℕ) → k < 8 → slice_index values.new k
        ≡ bit_xor (F.product field (slice_index values.old k) (slice_index points.now k)) symbol }
{
    for k in 0..8 {
        values[k] = field.multiply(values[k], points[k]) ^ symbol;
    }
}

// The values at eight points of the polynomial whose coefficients are the symbols, the first that of the highest power, but for bits above
// the field, which products do not read.
fn values_at_eight<F: SymbolField>(field: F, word: &[u16], points: &[u16; 8]) -> [u16; 8]
    ensures { (k : ℕ) → k < 8 → F.product field (slice_index result k) 1
        ≡ code_value (F.product field) (length word.now) (slice_index word.now) (slice_index points.now k) }
{
    let mut values = [0; 8];
    for symbol in word {
        add_symbol(field, &mut values, points, *symbol);
    }
    values
}

// Eight entries, and zeros behind the last.
fn read_eight(entries: &[u16], first: usize) -> [u16; 8]
    requires { first ≤ length entries.now }
    ensures { (k : ℕ) → k < 8 → first + k < length entries.now → slice_index result k ≡ slice_index entries.now (first + k) }
{
    let mut eight = [0; 8];
    let count = (entries.len() - first).min(8);
    for k in 0..count {
        eight[k] = entries[first + k];
    }
    eight
}

// Replaces points by the values there of the polynomial whose coefficients are the symbols, the first that of the highest power.
pub(crate) fn evaluate<F: SymbolField>(field: F, word: &[u16], points: &mut [u16])
    ensures long { length points.new ≡ length points.old }
    ensures values { (m : ℕ) → m < length points.old → slice_index points.new m
        ≡ code_value (F.product field) (length word.now) (slice_index word.now) (slice_index points.old m) }
{
    let mut found = [0; 8];
    for m in 0..points.len() {
        if m % 8 == 0 {
            found = values_at_eight(field, word, &read_eight(points, m));
        }
        points[m] = field.multiply(found[m % 8], 1);
    }
}

// Adds to each value a factor times the power of a point whose exponent is the place of the value.
fn add_powers<F: SymbolField>(field: F, values: &mut [u16], factor: u16, point: u16)
    ensures long { length values.new ≡ length values.old }
    ensures added { (m : ℕ) → m < length values.old → slice_index values.new m
        ≡ bit_xor (slice_index values.old m) (F.product field factor (power 1 (F.product field) point m)) }
{
    let mut term = field.multiply(factor, 1);
    for m in 0..values.len() {
        values[m] = values[m] ^ term;
        term = field.multiply(term, point);
    }
}

impl<F: SymbolField> FieldCode<F> {
    // The values of a word at the roots become those of another, by the places where they differ.
    pub(crate) fn turn_values(
        &self,
        points: &[u16],
        word: &[u16],
        other: &[u16],
        values: &mut [u16],
    )
        requires points { AreFallingPoints (F.product self.now.field) self.now.root self.now.word_length points.now }
        requires whole { length points.now ≡ self.now.word_length }
        requires long { length word.now ≡ self.now.word_length }
        requires other { length other.now ≡ self.now.word_length }
        requires values { (m : ℕ) → m < length values.old → slice_index values.old m ≡ code_value (F.product self.now.field)
            self.now.word_length (slice_index word.now) (power 1 (F.product self.now.field) self.now.root (self.now.first_root + m)) }
        ensures long { length values.new ≡ length values.old }
        ensures values { (m : ℕ) → m < length values.old → slice_index values.new m ≡ code_value (F.product self.now.field)
            self.now.word_length (slice_index other.now) (power 1 (F.product self.now.field) self.now.root (self.now.first_root + m)) }
    {
        let scale = power_of(self.field, self.root, self.first_root);
        for i in 0..self.word_length {
            let difference = word[i] ^ other[i];
            if difference != 0 {
                let own = power_of(self.field, scale, self.word_length - 1 - i);
                let factor = self.field.multiply(own, difference);
                add_powers(self.field, values, factor, points[i]);
            }
        }
    }
}
