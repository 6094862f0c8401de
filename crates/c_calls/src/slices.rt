// Arithmetic on slices of words, place by place, over any field. Each function returns a status: the lengths are compared first, then it is
// seen that all words are elements, and nothing is written before.
ghost use Rattle.std.specs.Prelude.{◌≡◌, ◌↔◌, ◌*◌, ◌≤◌, IsTrue, length};
ghost use Rattle.c_calls.specs.Calls.{CallOnEach, CallOnTwo, ChangesBasis};
ghost use Rattle.c_calls.specs.Calls.{NamesGenerator, TakesProduct};
ghost use Rattle.many_words.specs.Fields.{field_of};
ghost use Rattle.many_words.specs.Words.{AreElements, Each, EachOfTwo};

use crate::operations::{AtOne, AtTwo};
use crate::scalars::ScalarWords;
use crate::status;
use field_base::{FieldKernel, Holds, Stored};
use many_words::{ChangeOfBasis, fields};

/// Writes the result of the operation at the word at each place. Operations that look words up take two in a turn, for which the
/// address of a table is loaded once.
#[inline]
pub fn write_each<S: ScalarWords, O: AtOne<S>>(
    field: S,
    words: &[S::Word],
    results: &mut [S::Word],
    operation: &O,
    two_in_a_turn: bool,
) -> u32
    ensures { CallOnEach (S.field field) (O.gives operation.now field) words.now results.old results.new result }
{
    if words.len() != results.len() {
        return status::LENGTH;
    }
    if !field.are_elements(words) {
        return status::NOT_AN_ELEMENT;
    }
    write_all(field, words, results, operation, two_in_a_turn);
    status::OK
}

/// Writes the result of the operation at each word, an element. The slices are of one length.
#[inline]
pub(crate) fn write_all<S: ScalarWords, O: AtOne<S>>(
    field: S,
    words: &[S::Word],
    results: &mut [S::Word],
    operation: &O,
    two_in_a_turn: bool,
)
    requires same { length words.now ≡ length results.old }
    requires elements { AreElements (S.field field) words.now }
    ensures { Each (S.field field) (O.gives operation.now field) words.now results.new }
{
    let pairs = pairs_of(results.len(), two_in_a_turn);
    'pairs: for pair in 0..pairs {
        let place = 2 * pair;
        results[place] = operation.at(field, words[place]);
        results[place + 1] = operation.at(field, words[place + 1]);
    }
    'rest: for place in 2 * pairs..results.len() {
        results[place] = operation.at(field, words[place]);
    }
}

// The pairs of so many places that a loop takes two in a turn.
#[inline(always)]
fn pairs_of(count: usize, two_in_a_turn: bool) -> usize
    ensures { 2 * result ≤ count }
{
    if two_in_a_turn { count / 2 } else { 0 }
}

/// Writes the result of the operation at the words of two slices at each place.
#[inline]
pub fn write_each_of_two<S: ScalarWords, O: AtTwo<S>>(
    field: S,
    left: &[S::Word],
    right: &[S::Word],
    results: &mut [S::Word],
    operation: &O,
) -> u32
    ensures { CallOnTwo (S.field field) (O.gives operation.now field) left.now right.now results.old results.new result }
{
    if left.len() != results.len() || right.len() != results.len() {
        return status::LENGTH;
    }
    if !are_both_elements(field, left, right) {
        return status::NOT_AN_ELEMENT;
    }
    for place in 0..results.len() {
        results[place] = operation.at_two(field, left[place], right[place]);
    }
    status::OK
}

/// Writes the product of all words, which is 1 of none.
#[inline]
pub fn product<S: ScalarWords>(field: S, words: &[S::Word], product: &mut S::Word) -> u32
    ensures { TakesProduct (S.field field) words.now product.old product.new result }
{
    if !field.are_elements(words) {
        return status::NOT_AN_ELEMENT;
    }
    let mut value = field.one();
    for word in words {
        value = field.multiply(value, *word);
    }
    *product = value;
    status::OK
}

/// Writes a generator of the nonzero elements.
#[inline]
pub fn generator<R: Stored, W: Holds<R>, K: FieldKernel<R>>(generator: &mut W) -> u32
    ensures { NamesGenerator (field_of W.number K.width K.product K.generator) generator.new result }
{
    *generator = fields::generator::<R, W, K>();
    status::OK
}

/// Writes the image of each word under a change of basis.
#[inline]
pub fn change_basis<R: Stored, W: Holds<R>, C: ChangeOfBasis<R>>(
    words: &[W],
    images: &mut [W],
) -> u32
    ensures { ChangesBasis W.number C.relates words.now images.old images.new result }
{
    if words.len() != images.len() {
        return status::LENGTH;
    }
    for place in 0..images.len() {
        images[place] = W::of_stored(C::change(words[place].stored()));
    }
    status::OK
}

/// Whether every word is an element. All words are looked at, so that the loop becomes one over vectors; where an element has as many bits as
/// a word, nothing is left of it.
#[inline]
pub(crate) fn are_elements<R: Stored, W: Holds<R>, K: FieldKernel<R>>(words: &[W]) -> bool
    ensures { IsTrue result ↔ AreElements (field_of W.number K.width K.product K.generator) words.now }
{
    let mut all = true;
    for word in words {
        all = fields::is_element::<R, W, K>(*word) && all;
    }
    all
}

/// Whether every word of both slices is an element.
#[inline]
pub(crate) fn are_both_elements<S: ScalarWords>(
    field: S,
    left: &[S::Word],
    right: &[S::Word],
) -> bool
    ensures { IsTrue result ↔ (AreElements (S.field field) left.now × AreElements (S.field field) right.now) }
{
    field.are_elements(left) && field.are_elements(right)
}
