// The value of a polynomial that is given by its coefficients.
ghost use Rattle.std.specs.Prelude.{◌≡◌, ◌%◌, ◌≤◌, ◌++◌, ℕ, List, length};
ghost use Rattle.field_base.specs.Powers.{power, repeated_square, value_of};

use crate::{Elements, Scalars};
use field_base::traits::Field;

/// The value at `x` of the polynomial with these coefficients, lowest first: the sum of `coefficients[k]` times x^k; of no
/// coefficients it is 0. It is `value_at` of elements.
pub fn evaluate<F: Field>(coefficients: &[F], x: F) -> F
    ensures { F.repr result ≡ value_of F.unit F.product F.repr coefficients.now (F.repr x) }
{
    value_at(Elements::<F>::new(), coefficients, x)
}

/// The value at `x` of the polynomial with these coefficients, lowest first, which are elements or words that stand for them. By Horner's
/// rule from the last coefficient down (D. E. Knuth, The Art of Computer Programming, volume 2, "Evaluation of Polynomials"), so with one
/// product and one sum for each coefficient. From 128 coefficients on it goes by blocks of so many and x^128, so that the products of a block
/// are by one scalar, and the sums of the blocks are folded in half twice in the same way. It takes no memory.
#[inline]
pub fn value_at<S: Scalars>(field: S, coefficients: &[S::Value], x: S::Value) -> S::Value
    ensures { S.number field result ≡ value_of 1 (S.product field) (S.number field) coefficients.now (S.number field x) }
{
    if coefficients.len() < LEAST_IN_LANES {
        value_one_by_one(field, coefficients, x)
    } else {
        value_in_lanes(field, coefficients, x)
    }
}

// How many sums there are: so many that a scalar's tables pay.
const LANES: usize = 128;

// From how many coefficients on the sums pay, of which 32 are added up one by one at the end: from one block on.
const LEAST_IN_LANES: usize = LANES;

// The same value by one chain: what is there times x, and the next coefficient.
#[inline]
fn value_one_by_one<S: Scalars>(field: S, coefficients: &[S::Value], x: S::Value) -> S::Value
    ensures { S.number field result ≡ value_of 1 (S.product field) (S.number field) coefficients.now (S.number field x) }
{
    let mut value = field.zero();
    for place in (0..coefficients.len()).rev() {
        value = field.add(field.multiply(value, x), coefficients[place]);
    }
    value
}

// The same value by as many chains as a block has coefficients, whose sums are folded in half until there are 32, and then by one. The sums
// start as the last block, which may be short, with zeros behind it. There are at least as many coefficients as sums, so that the sums fit in
// memory.
fn value_in_lanes<S: Scalars>(field: S, coefficients: &[S::Value], x: S::Value) -> S::Value
    requires { 128 ≤ length coefficients.now }
    ensures { S.number field result ≡ value_of 1 (S.product field) (S.number field) coefficients.now (S.number field x) }
{
    let (blocks, last) = coefficients.split_at(coefficients.len() / LANES * LANES);
    let mut sums = [field.zero(); LANES];
    sums[..last.len()].copy_from_slice(last);
    let by_quarter = squared(field, x, 5);
    let by_half = field.square(by_quarter);
    add_blocks(field, &mut sums, blocks, field.square(by_half));
    let (first, second) = sums.split_at_mut(LANES / 2);
    fold(field, first, second, by_half);
    let (third, fourth) = second.split_at_mut(LANES / 4);
    fold(field, third, fourth, by_quarter);
    value_one_by_one(field, fourth, x)
}

// Brings the coefficients of these blocks before the sums: for each block, from the last one down, the sums are multiplied by `high`, which is
// x^128, and each gets the coefficient at its place.
fn add_blocks<S: Scalars>(field: S, sums: &mut [S::Value], blocks: &[S::Value], high: S::Value)
    requires size { length sums.old ≡ 128 }
    requires whole { length blocks.now % 128 ≡ 0 }
    ensures long { length sums.new ≡ 128 }
    ensures value { (x : ℕ) → S.number field high ≡ power 1 (S.product field) x 128
        → value_of 1 (S.product field) (S.number field) sums.new x ≡ value_of 1 (S.product field) (S.number field)
        (blocks.now ++ sums.old) x }
{
    let mut start = blocks.len();
    while start > 0 {
        let end = start;
        start -= LANES;
        fold(field, &blocks[start..end], sums, high);
    }
}

// Brings as many coefficients before the sums as these are: the sums are multiplied by `high`, which is the power of x for so many, and each
// gets the coefficient at its place. Their value was that of `rest`.
fn fold<S: Scalars>(field: S, coefficients: &[S::Value], sums: &mut [S::Value], high: S::Value)
    requires same { length coefficients.now ≡ length sums.old }
    ensures long { length sums.new ≡ length sums.old }
    ensures value { (x k : ℕ) (rest : List S.Value) → length sums.old ≡ k → S.number field high ≡ power 1 (S.product field) x k
        → value_of 1 (S.product field) (S.number field) sums.old x ≡ value_of 1 (S.product field) (S.number field) rest x
        → value_of 1 (S.product field) (S.number field) sums.new x ≡ value_of 1 (S.product field) (S.number field)
        (coefficients.now ++ rest) x }
{
    field.multiply_by(sums, high);
    field.add_each(sums, coefficients);
}

// The value squared `count` times.
fn squared<S: Scalars>(field: S, x: S::Value, count: usize) -> S::Value
    ensures { S.number field result ≡ repeated_square 1 (S.product field) count (S.number field x) }
{
    let mut value = x;
    for _ in 0..count {
        value = field.square(value);
    }
    value
}
