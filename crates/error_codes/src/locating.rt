// Which shares are wrong. Each byte of the shares is the value of a polynomial of k coefficients, so that with scales that
// follow from the indexes they are a word of a Reed-Solomon code with n - k checks. Its syndromes are 0 where no share is
// wrong; elsewhere they follow from the differences to the right bytes, and not from the secret.
ghost use Rattle.std.specs.Prelude.{◌≡◌, ◌+◌, ◌*◌, ◌<◌, ◌≤◌, ◌||◌, ℕ, List, length, nat_eq, slice_index, false, IfSome, IsSomeAnd};
ghost use Rattle.field_base.specs.Basis.{sum_below};
ghost use Rattle.field_slices.specs.Marks.{marked_below};
ghost use Rattle.error_codes.specs.Checks.{dual_weight, syndrome};
ghost use Rattle.error_codes.specs.Correcting.{code_value};
ghost use Rattle.error_codes.specs.Filling.{is_marked};
ghost use Rattle.reed_solomon.specs.ByteFields.{byte_times};
ghost use Rattle.error_codes.specs.Refusals.{AreShares};
ghost use Rattle.error_codes.specs.Sharing.{share_at};
ghost use Rattle.error_codes.specs.Wrong.{is_wrong_share, AreNearPolynomials};

use crate::factors::scales_of;
use crate::product::multiply_masked;
use crate::unmarked::{no_marks, unmarked_of};
use crate::{Register, shortest_register};
use reed_solomon::byte_field::ByteField;

// The shares that are wrong, and no others, where few are: no more than half as many as are given above those needed.
// Elsewhere the answer is none, or any marks of no more shares than that.
pub(crate) fn suspected_shares(
    field: ByteField,
    needed: usize,
    indexes: &[u8],
    shares: &[u8],
    size: usize,
) -> Option<[bool; 256]>
    requires checked { AreShares needed indexes.now size (length shares.now) }
    ensures found { (polynomials : ℕ → List ℕ)
        → AreNearPolynomials field needed indexes.now size shares.now polynomials
        → IsSomeAnd result (λ wrong. (i : ℕ) → i < length indexes.now
        → is_marked wrong i ≡ is_wrong_share field indexes.now size shares.now polynomials i) }
    ensures behind { IfSome result (λ wrong. (i : ℕ) → length indexes.now ≤ i → is_marked wrong i ≡ false) }
    ensures few { IfSome result (λ wrong.
        2 * marked_below (is_marked wrong) (length indexes.now) + needed ≤ length indexes.now) }
{
    let checks = indexes.len() - needed;
    let scales = scales_of(field, indexes);
    let mut wrong = no_marks();
    for j in 0..size {
        let sums = syndromes_of(field, indexes, &scales, shares, size, j, checks);
        let register = shortest_register(field, &sums, checks);
        if register.size > checks / 2 {
            return None;
        }
        mark_roots(field, indexes, &register, &mut wrong);
    }
    if unmarked_of(&wrong, indexes).count < indexes.len() - checks / 2 {
        return None;
    }
    Some(wrong)
}

// The syndromes of byte j of all shares, as of a word of a code with so many checks, and zeros behind them.
fn syndromes_of(
    field: ByteField,
    indexes: &[u8],
    scales: &[u8; 255],
    shares: &[u8],
    size: usize,
    j: usize,
    checks: usize,
) -> [u8; 256]
    requires few { length indexes.now ≤ 255 }
    requires short { checks ≤ 255 }
    requires inside { j < size }
    requires room { length indexes.now * size ≤ length shares.now }
    ensures { (m : ℕ) → m < checks → slice_index result m ≡ syndrome (byte_times field) (length indexes.now)
        (slice_index indexes.now) (slice_index scales.now) (share_at size shares.now j) m }
{
    let mut terms = scaled_column(field, scales, shares, indexes.len(), size, j);
    let mut sums = [0; 256];
    for m in 0..checks {
        sums[m] = next_sum(field, indexes, &mut terms);
    }
    sums
}

// Byte j of each share times its scale.
fn scaled_column(
    field: ByteField,
    scales: &[u8; 255],
    shares: &[u8],
    count: usize,
    size: usize,
    j: usize,
) -> [u8; 255]
    requires few { count ≤ 255 }
    requires inside { j < size }
    requires room { count * size ≤ length shares.now }
    ensures { (i : ℕ) → i < count
        → slice_index result i ≡ byte_times field (slice_index scales.now i) (share_at size shares.now j i) }
{
    let mut terms = [0; 255];
    for i in 0..count {
        terms[i] = multiply_masked(field, scales[i], shares[i * size + j]);
    }
    terms
}

// The sum of the terms, each of which then becomes its product by the index of its share.
fn next_sum(field: ByteField, indexes: &[u8], terms: &mut [u8; 255]) -> u8
    requires few { length indexes.now ≤ 255 }
    ensures sum { result ≡ sum_below (slice_index terms.old) (length indexes.now) }
    ensures next { (i : ℕ) → i < length indexes.now
        → slice_index terms.new i ≡ byte_times field (slice_index indexes.now i) (slice_index terms.old i) }
{
    let mut sum = 0;
    for i in 0..indexes.len() {
        sum ^= terms[i];
        terms[i] = multiply_masked(field, indexes[i], terms[i]);
    }
    sum
}

// Marks the shares at whose indexes the polynomial is 0 that has the coefficients of a register, the first that of the
// highest power.
fn mark_roots(field: ByteField, indexes: &[u8], register: &Register, marks: &mut [bool; 256])
    requires few { length indexes.now ≤ 255 }
    requires short { register.now.size < 256 }
    ensures marked { (i : ℕ) → i < length indexes.now
        → is_marked marks.new i ≡ (is_marked marks.old i || nat_eq (code_value (byte_times field)
        (register.now.size + 1) (slice_index register.now.coefficients) (slice_index indexes.now i)) 0) }
    ensures behind { (i : ℕ) → length indexes.now ≤ i → is_marked marks.new i ≡ is_marked marks.old i }
{
    for i in 0..indexes.len() {
        let value = reverse_value(field, register, indexes[i]);
        if value == 0 {
            marks[i] = true;
        }
    }
}

// The value at x of that polynomial.
fn reverse_value(field: ByteField, register: &Register, x: u8) -> u8
    requires { register.now.size < 256 }
    ensures { result ≡ code_value (byte_times field) (register.now.size + 1) (slice_index register.now.coefficients) x }
{
    let mut value = 0;
    for i in 0..register.size + 1 {
        value = multiply_masked(field, x, value) ^ register.coefficients[i];
    }
    value
}
