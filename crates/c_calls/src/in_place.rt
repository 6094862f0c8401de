// Arithmetic on slices of words in place, over any field: each result takes the place of an operand. The contracts are those of the
// functions over slices apart, whose first operand is here what the slice held before.
ghost use Rattle.std.specs.Prelude.{◌≡◌, length};
ghost use Rattle.c_calls.specs.Calls.{CallOnEach, CallOnTwo};
ghost use Rattle.many_words.specs.Words.{AreElements, Each, EachOfTwo};

use crate::operations::{AtOne, AtTwo};
use crate::scalars::ScalarWords;
use crate::slices::are_both_elements;
use crate::status;

/// Leaves the result of the operation at each word.
#[inline]
pub fn change_each<S: ScalarWords, O: AtOne<S>>(
    field: S,
    words: &mut [S::Word],
    operation: &O,
) -> u32
    ensures { CallOnEach (S.field field) (O.gives operation.now field) words.old words.old words.new result }
{
    if !field.are_elements(words) {
        return status::NOT_AN_ELEMENT;
    }
    change_all(field, words, operation);
    status::OK
}

/// Leaves the result of the operation at each word, an element.
#[inline]
pub(crate) fn change_all<S: ScalarWords, O: AtOne<S>>(
    field: S,
    words: &mut [S::Word],
    operation: &O,
)
    requires { AreElements (S.field field) words.old }
    ensures long { length words.new ≡ length words.old }
    ensures results { Each (S.field field) (O.gives operation.now field) words.old words.new }
{
    for place in 0..words.len() {
        words[place] = operation.at(field, words[place]);
    }
}

/// Leaves the result of the operation at each word and the other word at its place.
#[inline]
pub fn change_each_by<S: ScalarWords, O: AtTwo<S>>(
    field: S,
    words: &mut [S::Word],
    others: &[S::Word],
    operation: &O,
) -> u32
    ensures { CallOnTwo (S.field field) (O.gives operation.now field) words.old others.now words.old words.new result }
{
    if others.len() != words.len() {
        return status::LENGTH;
    }
    if !are_both_elements(field, words, others) {
        return status::NOT_AN_ELEMENT;
    }
    for place in 0..words.len() {
        words[place] = operation.at_two(field, words[place], others[place]);
    }
    status::OK
}
