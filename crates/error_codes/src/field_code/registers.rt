// The shortest shift register of a sequence of elements of any field (E. R. Berlekamp, Algebraic coding theory, 1968; J. L. Massey,
// Shift-register synthesis and BCH decoding, 1969), in memory of the caller.
ghost use Rattle.std.specs.Prelude.{◌≡◌, ◌≢◌, ◌+◌, ◌-◌, ◌<◌, ◌≤◌, ◌^◌, ℕ, length, slice_index, bit_xor};
ghost use Rattle.error_codes.specs.FieldCodes.{AreSymbols};
ghost use Rattle.error_codes.specs.Registers.{IsShortest, register_sum};

use crate::field_code::encoding::clear_from;
use crate::symbols::SymbolField;

// Where the first entry that is not 0 stands.
fn first_nonzero(entries: &[u16], count: usize) -> usize
    requires { count ≤ length entries.now }
    ensures within { result ≤ count }
    ensures before { (n : ℕ) → n < result → slice_index entries.now n ≡ 0 }
    ensures found { result < count → slice_index entries.now result ≢ 0 }
{
    for i in 0..count {
        if entries[i] != 0 {
            return i;
        }
    }
    count
}

// The sum of entry l and the `size` entries before it times the coefficients.
fn sum_at<F: SymbolField>(
    field: F,
    coefficients: &[u16],
    size: usize,
    entries: &[u16],
    l: usize,
) -> u16
    requires before { size ≤ l }
    requires inside { l < length entries.now }
    requires room { size < length coefficients.now }
    ensures { result ≡ register_sum (F.product field) (slice_index entries.now) size (slice_index coefficients.now) l }
{
    let mut sum = 0;
    for i in 0..size + 1 {
        sum = sum ^ field.multiply(coefficients[i], entries[l - i]);
    }
    sum
}

// Adds a multiple of older coefficients, `shift` places on.
fn add_shifted<F: SymbolField>(
    field: F,
    coefficients: &mut [u16],
    factor: u16,
    older: &[u16],
    shift: usize,
)
    requires inside { shift ≤ length coefficients.old }
    requires same { length older.now ≡ length coefficients.old }
    ensures long { length coefficients.new ≡ length coefficients.old }
    ensures before { (i : ℕ) → i < shift → slice_index coefficients.new i ≡ slice_index coefficients.old i }
    ensures behind { (i : ℕ) → shift + i < length coefficients.old → slice_index coefficients.new (shift + i)
        ≡ bit_xor (slice_index coefficients.old (shift + i)) (F.product field factor (slice_index older.now i)) }
{
    for i in 0..coefficients.len() - shift {
        coefficients[shift + i] = coefficients[shift + i] ^ field.multiply(factor, older[i]);
    }
}

// Writes the coefficients of a shortest register that gives the first `count` entries, 1 first and zeros behind them, and returns how many
// entries before another one it takes. What stood in the rows is not read.
pub(crate) fn write_register<F: SymbolField>(
    field: F,
    entries: &[u16],
    count: usize,
    coefficients: &mut [u16],
    older: &mut [u16],
    spare: &mut [u16],
) -> usize
    requires inside { count ≤ length entries.now }
    requires elements { AreSymbols (F.width field) count entries.now }
    requires room { count < length coefficients.old }
    requires same { length older.old ≡ length coefficients.old }
    requires spare { length spare.old ≡ length coefficients.old }
    ensures long { length coefficients.new ≡ length coefficients.old }
    ensures long_older { length older.new ≡ length older.old }
    ensures long_spare { length spare.new ≡ length spare.old }
    ensures fits { (i : ℕ) → slice_index coefficients.new i < 2 ^ F.width field }
    ensures shortest { IsShortest (F.product field) (slice_index entries.now) result count (slice_index coefficients.new) }
{
    clear_from(coefficients, 0);
    coefficients[0] = 1;
    let first = first_nonzero(entries, count);
    if first == count {
        return 0;
    }
    let mut size = first + 1;
    older.copy_from_slice(coefficients);
    let mut failed = first;
    let mut failure = entries[first];
    for l in first + 1..count {
        let sum = sum_at(field, coefficients, size, entries, l);
        if sum != 0 {
            spare.copy_from_slice(coefficients);
            let factor = field.multiply(sum, field.invert(failure));
            add_shifted(field, coefficients, factor, older, l - failed);
            if l + 1 > 2 * size {
                size = l + 1 - size;
                older.copy_from_slice(spare);
                failed = l;
                failure = sum;
            }
        }
    }
    size
}
