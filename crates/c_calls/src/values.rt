// Values of polynomials and inverses of words, over any field.
ghost use Rattle.std.specs.Prelude.{◌≡◌, length};
ghost use Rattle.field_base.specs.Powers.{value_of};
ghost use Rattle.many_words.specs.Words.{AreElements, HoldInverses, IsElement};
ghost use Rattle.c_calls.specs.Calls.{Evaluates, Inverts};

use crate::low_bits::{LowBits, truncate_all};
use crate::scalars::ScalarWords;
use crate::slices::are_both_elements;
use crate::status;

/// Writes the value at each point of the polynomial with these coefficients, the constant one first. From 128 coefficients on it goes by
/// blocks of so many and the power x^128 of a point, so that the products of a block are by one scalar.
#[inline]
pub fn evaluate<S: ScalarWords>(
    field: S,
    coefficients: &[S::Word],
    points: &[S::Word],
    values: &mut [S::Word],
) -> u32
    ensures { Evaluates (S.field field) coefficients.now points.now values.old values.new result }
{
    if points.len() != values.len() {
        return status::LENGTH;
    }
    if !are_both_elements(field, coefficients, points) {
        return status::NOT_AN_ELEMENT;
    }
    for place in 0..values.len() {
        values[place] = value_at(field, coefficients, points[place]);
    }
    status::OK
}

// The value at a point of the polynomial with these coefficients.
fn value_at<S: ScalarWords>(field: S, coefficients: &[S::Word], point: S::Word) -> S::Word
    requires coefficients { AreElements (S.field field) coefficients.now }
    requires point { IsElement (S.field field) point }
    ensures { (S.field field).number result ≡ value_of 1 (S.field field).times (S.field field).number coefficients.now
        ((S.field field).number point) }
{
    field.truncated(field_slices::value_at(LowBits { field }, coefficients, point))
}

/// Writes the inverse of each word, and 0 for 0: by one inverse and three products a word, or by what the field has for so many. It takes
/// no memory.
#[inline]
pub(crate) fn invert<S: ScalarWords>(field: S, words: &[S::Word], inverses: &mut [S::Word]) -> u32
    ensures { Inverts (S.field field) words.now inverses.old inverses.new result }
{
    if words.len() != inverses.len() {
        return status::LENGTH;
    }
    if !field.are_elements(words) {
        return status::NOT_AN_ELEMENT;
    }
    write_inverses(field, words, inverses);
    status::OK
}

// The same of words that are elements.
#[inline]
fn write_inverses<S: ScalarWords>(field: S, words: &[S::Word], inverses: &mut [S::Word])
    requires long { length inverses.old ≡ length words.now }
    requires elements { AreElements (S.field field) words.now }
    ensures { HoldInverses (S.field field) words.now inverses.new }
{
    field_slices::inverses_into(LowBits { field }, words, inverses);
    truncate_all(field, inverses);
}
