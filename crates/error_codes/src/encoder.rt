// The generator polynomial of a code, and encoding by it.
ghost use Rattle.std.specs.Prelude.{◌≡◌, ◌+◌, ◌-◌, ◌<◌, ◌≤◌, ℕ, length, slice_index, bit_xor};
ghost use Rattle.reed_solomon.specs.ByteFields.{byte_times};
ghost use Rattle.error_codes.specs.Correcting.{HasRoots, code_value};

use crate::code::CorrectingCode;
use crate::dual_basis::bytes_fit;
use reed_solomon::byte_field::{ByteField, images_of, multiply};
use word_tables::map_bytes;

// The coefficients of a polynomial times x + root, the highest first. Behind those of its degree there are zeros.
fn multiply_by_root(
    field: ByteField,
    coefficients: &[u8; 256],
    degree: usize,
    root: u8,
) -> [u8; 256]
    requires room { degree < 255 }
    requires zeros { (j : ℕ) → degree < j → j < 256 → slice_index coefficients.now j ≡ 0 }
    ensures first { slice_index result 0 ≡ slice_index coefficients.now 0 }
    ensures next { (j : ℕ) → j + 1 < 256 → slice_index result (j + 1)
        ≡ bit_xor (slice_index coefficients.now (j + 1)) (byte_times field root (slice_index coefficients.now j)) }
{
    let mut product = *coefficients;
    for j in 1..degree + 2 {
        product[j] = coefficients[j] ^ multiply(field, root, coefficients[j - 1]);
    }
    product
}

// The product of x + roots[m] over m below `count`, the highest coefficient first.
pub(crate) fn generator_polynomial(field: ByteField, roots: &[u8; 256], count: usize) -> [u8; 256]
    requires { count < 255 }
    ensures monic { slice_index result 0 ≡ 1 }
    ensures zeros { (m : ℕ) → m < count
        → code_value (byte_times field) (count + 1) (slice_index result) (slice_index roots.now m) ≡ 0 }
{
    let mut product = [0; 256];
    product[0] = 1;
    for m in 0..count {
        product = multiply_by_root(field, &product, m, roots[m]);
    }
    product
}

// The rest of division by the generator polynomial, a symbol of data further: the coefficients move up by one, and a
// multiple of the generator polynomial takes the highest away.
fn shift_rest(
    field: ByteField,
    rest: &mut [u8; 256],
    count: usize,
    generator: &[u8; 256],
    symbol: u8,
)
    requires { count < 255 }
    ensures shifted { (j : ℕ) → j < count → slice_index rest.new j ≡ bit_xor (slice_index rest.old (j + 1))
        (byte_times field (bit_xor symbol (slice_index rest.old 0)) (slice_index generator.now (j + 1))) }
    ensures others { (j : ℕ) → count ≤ j → slice_index rest.new j ≡ slice_index rest.old j }
{
    bytes_fit(generator);
    let factor = symbol ^ rest[0];
    let mut products = *generator;
    map_bytes(&images_of(field, factor), &mut products[..count + 1]);
    for j in 0..count {
        rest[j] = rest[j + 1] ^ products[j + 1];
    }
}

impl CorrectingCode {
    /// Writes the symbols behind the data, so that the polynomial of the word is 0 at every root. What stood there is
    /// not read. No other word of the code has these data: it would differ at no more places than there are roots
    /// (`laws::sent_is_unique`).
    pub fn encode(&self, word: &mut [u8])
        requires { length word.old ≡ self.now.word_length }
        ensures long { length word.new ≡ length word.old }
        ensures kept { (i : ℕ) → i < self.now.dimension → slice_index word.new i ≡ slice_index word.old i }
        ensures encoded { HasRoots (byte_times self.now.field) self.now.root self.now.first_root
            (self.now.word_length - self.now.dimension) word.new }
    {
        let checks = self.word_length - self.dimension;
        let mut rest = [0; 256];
        for i in 0..self.dimension {
            shift_rest(self.field, &mut rest, checks, &self.generator, word[i]);
        }
        for j in 0..checks {
            word[self.dimension + j] = rest[j];
        }
    }
}
