// Calls over many words of a field: each compares lengths, looks at each word and returns a status, and what computes the words stands in
// `many_words`, once for all fields of kernels, and in `any_field` for those that a caller chooses.
ghost use Rattle.c_calls.specs.Calls.{AddsScaled, Inverts, Multiplies, MultipliesBy, RaisesTo, TakesDotProduct};

use crate::operations::{Inverse, Power, Product, Scaled};
use crate::scalars::ScalarWords;
use crate::slices::{are_both_elements, write_all, write_each, write_each_of_two};
use crate::{status, values};

/// Writes the product of the words at each place.
#[inline]
pub fn multiply<S: ScalarWords>(
    field: S,
    left: &[S::Word],
    right: &[S::Word],
    products: &mut [S::Word],
) -> u32
    ensures { Multiplies (S.field field) left.now right.now products.old products.new result }
{
    if left.len() < field.sizes().multiplied {
        return write_each_of_two(field, left, right, products, &Product);
    }
    if left.len() != products.len() || right.len() != products.len() {
        return status::LENGTH;
    }
    if !are_both_elements(field, left, right) {
        return status::NOT_AN_ELEMENT;
    }
    products.copy_from_slice(left);
    field.multiply_each(products, right);
    status::OK
}

/// Multiplies each product by the word at its place.
#[inline]
pub fn multiply_in_place<S: ScalarWords>(
    field: S,
    products: &mut [S::Word],
    words: &[S::Word],
) -> u32
    ensures { Multiplies (S.field field) products.old words.now products.old products.new result }
{
    if words.len() != products.len() {
        return status::LENGTH;
    }
    if !are_both_elements(field, products, words) {
        return status::NOT_AN_ELEMENT;
    }
    field.multiply_each(products, words);
    status::OK
}

/// Writes the product of each word and the scalar.
#[inline]
pub fn multiply_by<S: ScalarWords>(
    field: S,
    words: &[S::Word],
    scalar: S::Word,
    products: &mut [S::Word],
) -> u32
    ensures { MultipliesBy (S.field field) scalar words.now products.old products.new result }
{
    if words.len() != products.len() {
        return status::LENGTH;
    }
    if !field.is_element(scalar) || !field.are_elements(words) {
        return status::NOT_AN_ELEMENT;
    }
    if words.len() < field.sizes().scaled {
        write_all(field, words, products, &Scaled { scalar }, false);
    } else {
        field.write_multiples(words, scalar, products);
    }
    status::OK
}

/// Multiplies each word by the scalar.
#[inline]
pub fn multiply_by_in_place<S: ScalarWords>(field: S, words: &mut [S::Word], scalar: S::Word) -> u32
    ensures { MultipliesBy (S.field field) scalar words.old words.old words.new result }
{
    if !field.is_element(scalar) || !field.are_elements(words) {
        return status::NOT_AN_ELEMENT;
    }
    field.multiply_by(words, scalar);
    status::OK
}

/// Adds to each sum the product of the scalar and the word at its place.
#[inline]
pub fn add_scaled<S: ScalarWords>(
    field: S,
    sums: &mut [S::Word],
    scalar: S::Word,
    words: &[S::Word],
) -> u32
    ensures { AddsScaled (S.field field) scalar words.now sums.old sums.new result }
{
    if words.len() != sums.len() {
        return status::LENGTH;
    }
    if !field.is_element(scalar) || !are_both_elements(field, sums, words) {
        return status::NOT_AN_ELEMENT;
    }
    field.add_scaled(sums, scalar, words);
    status::OK
}

/// Writes the sum of the products at each place, which is 0 of none.
#[inline]
pub fn dot_product<S: ScalarWords>(
    field: S,
    left: &[S::Word],
    right: &[S::Word],
    sum: &mut S::Word,
) -> u32
    ensures { TakesDotProduct (S.field field) left.now right.now sum.old sum.new result }
{
    if left.len() != right.len() {
        return status::LENGTH;
    }
    if !are_both_elements(field, left, right) {
        return status::NOT_AN_ELEMENT;
    }
    *sum = field.dot_product(left, right);
    status::OK
}

/// Writes each word to the power of the exponent; to the power of 0 it is 1.
#[inline]
pub fn raise<S: ScalarWords>(
    field: S,
    words: &[S::Word],
    exponent: u64,
    powers: &mut [S::Word],
) -> u32
    ensures { RaisesTo (S.field field) exponent words.now powers.old powers.new result }
{
    if words.len() < field.sizes().multiplied {
        return write_each(field, words, powers, &Power { exponent }, false);
    }
    if words.len() != powers.len() {
        return status::LENGTH;
    }
    if !field.are_elements(words) {
        return status::NOT_AN_ELEMENT;
    }
    powers.copy_from_slice(words);
    field.raise_each(powers, exponent);
    status::OK
}

/// Raises each word to the power of the exponent; to the power of 0 it is 1.
#[inline]
pub fn raise_in_place<S: ScalarWords>(field: S, words: &mut [S::Word], exponent: u64) -> u32
    ensures { RaisesTo (S.field field) exponent words.old words.old words.new result }
{
    if !field.are_elements(words) {
        return status::NOT_AN_ELEMENT;
    }
    field.raise_each(words, exponent);
    status::OK
}

/// Writes the inverse of each word, and 0 for 0.
#[inline]
pub fn invert<S: ScalarWords>(field: S, words: &[S::Word], inverses: &mut [S::Word]) -> u32
    ensures { Inverts (S.field field) words.now inverses.old inverses.new result }
{
    if words.len() < field.sizes().inverted {
        return write_each(field, words, inverses, &Inverse, false);
    }
    if words.len() != inverses.len() {
        return status::LENGTH;
    }
    if !field.are_elements(words) {
        return status::NOT_AN_ELEMENT;
    }
    inverses.copy_from_slice(words);
    field.invert_each(inverses);
    status::OK
}

/// Leaves the inverse of each word, and 0 of 0.
#[inline]
pub fn invert_in_place<S: ScalarWords>(field: S, words: &mut [S::Word]) -> u32
    ensures { Inverts (S.field field) words.old words.old words.new result }
{
    if !field.are_elements(words) {
        return status::NOT_AN_ELEMENT;
    }
    field.invert_each(words);
    status::OK
}

/// Writes the inverse of each word, and 0 for 0. Few words are a batch where that takes less: the inverse of one product, and three products
/// a word. It takes no memory.
#[inline]
pub fn batch_invert<S: ScalarWords>(field: S, words: &[S::Word], inverses: &mut [S::Word]) -> u32
    ensures { Inverts (S.field field) words.now inverses.old inverses.new result }
{
    if words.len() >= S::LEAST_INVERTED {
        return invert(field, words, inverses);
    }
    values::invert(field, words, inverses)
}
