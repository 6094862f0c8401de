// What kernels compute on many words at once, over elements: the words of a block of elements are copied, and so are the results. An
// element is no word that such a call could write to, since it has no more bits than its field.
ghost use Rattle.std.specs.Prelude.{◌≡◌, ◌<◌, ◌≤◌, ◌+◌, ◌^◌, ℕ, List, get_or, length, map};
ghost use Rattle.field_element.specs.Changes.{AreChanged};
ghost use Rattle.field_element.specs.Element.{repr_of};
ghost use Rattle.many_words.specs.Fields.{field_of};
ghost use Rattle.many_words.specs.Words.{AreElements};

use crate::element::Element;
use field_base::{FieldKernel, Stored};
use many_words::Many;
use many_words::fields::read_each;
use std::marker::PhantomData;

// How many words are copied at once. An array is cleared before it is filled, so that fewer elements get a smaller one.
const BLOCK: usize = 128;

const SOME: usize = 32;

pub(crate) const FEW: usize = 4;

/// What is computed of the words of a block of elements, each alone or with the element of another slice at its place.
pub(crate) trait OnWords<R: Stored, K: FieldKernel<R>> {
    // Whether so many others are enough for so many elements.
    ghost suffice: { ℕ → ℕ → Type 0 };

    // How, with these others and at this place, the number before is related to that after.
    ghost gives: { Self → List ℕ → ℕ → ℕ → ℕ → Type 0 };

    /// The least number of elements that are changed in blocks.
    fn least() -> usize;

    /// What becomes of the word of the element at a place.
    fn result_at(&self, word: R, others: &[Element<R, K>], place: usize) -> R
        requires suffice { suffice (length others.now) (place + 1) }
        requires element { R.number word < 2 ^ K.width }
        ensures element { R.number result < 2 ^ K.width }
        ensures result { gives self.now (map repr_of others.now) place (R.number word) (R.number result) };

    /// Changes the words of the elements from the place `start` on. There is room for as many words `beside` them.
    fn change(&self, words: &mut [R], beside: &mut [R], others: &[Element<R, K>], start: usize)
        requires room { length beside.old ≡ length words.old }
        requires suffice { suffice (length others.now) (start + length words.old) }
        requires elements { AreElements (field_of R.number K.width K.product K.generator) words.old }
        ensures long { length words.new ≡ length words.old }
        ensures elements { AreElements (field_of R.number K.width K.product K.generator) words.new }
        ensures results { (k : ℕ) → k < length words.old → (d : R) → gives self.now (map repr_of others.now) (start + k)
            (R.number (get_or words.old k d)) (R.number (get_or words.new k d)) };

    // Fewer elements need no more.
    ghost fewer_law: { (long m n : ℕ) → n ≤ m → suffice long m → suffice long n };
}

/// Changes each element: few one after another, and more block by block.
pub(crate) fn change_elements<R: Stored, K: Many<R, R>, O: OnWords<R, K>>(
    elements: &mut [Element<R, K>],
    others: &[Element<R, K>],
    operation: &O,
)
    requires { O.suffice (length others.now) (length elements.old) }
    ensures { AreChanged repr_of (O.gives operation.now (map repr_of others.now)) elements.old elements.new }
{
    if elements.len() < O::least() {
        for place in 0..elements.len() {
            elements[place] = Element {
                repr: operation.result_at(elements[place].repr, others, place),
                field: PhantomData,
            };
        }
    } else if elements.len() <= FEW {
        change_block::<R, K, O, FEW>(elements, others, operation, 0);
    } else if elements.len() <= SOME {
        change_block::<R, K, O, SOME>(elements, others, operation, 0);
    } else {
        change_blocks(elements, others, operation);
    }
}

// Changes the elements block by block. It is apart and never inlined, since a function clears its locals when it is called.
#[inline(never)]
fn change_blocks<R: Stored, K: Many<R, R>, O: OnWords<R, K>>(
    elements: &mut [Element<R, K>],
    others: &[Element<R, K>],
    operation: &O,
)
    requires { O.suffice (length others.now) (length elements.old) }
    ensures { AreChanged repr_of (O.gives operation.now (map repr_of others.now)) elements.old elements.new }
{
    let mut start = 0;
    while start < elements.len() {
        let size = BLOCK.min(elements.len() - start);
        let end = start + size;
        change_block::<R, K, O, BLOCK>(&mut elements[start..end], others, operation, start);
        start = end;
    }
}

// Changes at most `N` elements, which begin at the place `start`.
#[inline]
fn change_block<R: Stored, K: Many<R, R>, O: OnWords<R, K>, const N: usize>(
    elements: &mut [Element<R, K>],
    others: &[Element<R, K>],
    operation: &O,
    start: usize,
)
    requires few { length elements.old ≤ N }
    requires room { N ≤ 128 }
    requires suffice { O.suffice (length others.now) (start + length elements.old) }
    ensures { AreChanged repr_of (λ (k : ℕ). O.gives operation.now (map repr_of others.now) (start + k)) elements.old elements.new }
{
    let count = elements.len();
    let mut words = [R::ZERO; N];
    let mut beside = [R::ZERO; N];
    change_by_words(
        elements,
        others,
        operation,
        start,
        &mut words[..count],
        &mut beside[..count],
    );
}

// Changes the elements, which begin at the place `start`: there is room for their `words`, and for as many `beside` them.
#[inline(always)]
fn change_by_words<R: Stored, K: Many<R, R>, O: OnWords<R, K>>(
    elements: &mut [Element<R, K>],
    others: &[Element<R, K>],
    operation: &O,
    start: usize,
    words: &mut [R],
    beside: &mut [R],
)
    requires words { length words.old ≡ length elements.old }
    requires beside { length beside.old ≡ length elements.old }
    requires suffice { O.suffice (length others.now) (start + length elements.old) }
    ensures { AreChanged repr_of (λ (k : ℕ). O.gives operation.now (map repr_of others.now) (start + k)) elements.old elements.new }
{
    read_each(words, elements);
    operation.change(words, beside, others, start);
    for place in 0..elements.len() {
        elements[place] = Element {
            repr: words[place],
            field: PhantomData,
        };
    }
}
