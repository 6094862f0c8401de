// What is computed of many elements at once: products, multiples by one scalar, inverses, and sums of products.
ghost use Rattle.std.specs.Prelude.{◌≡◌, ◌<◌, ◌≤◌, ◌+◌, ◌^◌, ℕ, bit_xor, get_or, length, map, slice_index};
ghost use Rattle.std.specs.Simd.Lanes.{zip2};
ghost use Rattle.std.proofs.Common.{arith};
ghost use Rattle.field_base.specs.Field.{AreInverses, IsInverseOrZero};
ghost use Rattle.field_base.specs.Powers.{dot_of};
ghost use Rattle.field_element.specs.Element.{repr_of};
ghost use Rattle.packed_lanes.specs.Lanes.{lane_by_lane};

use crate::element::Element;
use crate::element::blocks::{FEW, OnWords, change_elements};
use field_base::{FieldKernel, Reads, Stored};
use many_words::Many;
use many_words::fields::read_each;
use std::marker::PhantomData;
use std::simd::prelude::*;

/// A kernel whose elements have a packing, which `Field::Packing` of them is: for most it is the element itself.
pub trait HasPacking<R: Stored>: Many<R, R> {
    /// The packing of the elements.
    type Packing;
}

/// Multiplies the elements of `left` by those of `right`, place by place. The slices are of one length.
#[inline]
pub(crate) fn multiply_elements<R: Stored, K: Many<R, R>>(
    left: &mut [Element<R, K>],
    right: &[Element<R, K>],
)
    requires { length left.old ≡ length right.now }
    ensures { map repr_of left.new ≡ lane_by_lane K.product (map repr_of left.old) (map repr_of right.now) }
{
    change_elements(left, right, &Products);
}

/// Multiplies the elements by the scalar.
#[inline]
pub(crate) fn multiply_elements_by<R: Stored, K: Many<R, R>>(
    elements: &mut [Element<R, K>],
    scalar: Element<R, K>,
)
    ensures { map repr_of elements.new ≡ map (λ x. K.product (repr_of scalar) x) (map repr_of elements.old) }
{
    let others = [];
    change_elements(elements, &others, &Multiples { scalar });
}

/// Adds to each sum the product of the scalar and the element at its place. The slices are of one length.
#[inline]
pub(crate) fn add_scaled_elements<R: Stored, K: Many<R, R>>(
    sums: &mut [Element<R, K>],
    scalar: Element<R, K>,
    elements: &[Element<R, K>],
)
    requires { length elements.now ≡ length sums.old }
    ensures { map repr_of sums.new
        ≡ zip2 (λ x y. bit_xor x (K.product (repr_of scalar) y)) (map repr_of sums.old) (map repr_of elements.now) }
{
    change_elements(sums, elements, &AddedMultiples { scalar });
}

/// Writes the inverse of each element to its place, and 0 for 0. The slices are of one length.
pub(crate) fn invert_elements<R: Stored, K: Many<R, R>>(
    elements: &[Element<R, K>],
    inverses: &mut [Element<R, K>],
)
    requires { length inverses.old ≡ length elements.now }
    ensures { AreInverses K.product (map repr_of elements.now) (map repr_of inverses.new) }
{
    inverses.copy_from_slice(elements);
    let others = [];
    change_elements(inverses, &others, &Inverses);
}

// Writes the words of the elements from the place `start` on.
#[inline(always)]
fn read_from<R: Stored, K: FieldKernel<R>>(
    words: &mut [R],
    elements: &[Element<R, K>],
    start: usize,
)
    requires { start + length words.old ≤ length elements.now }
    ensures long { length words.new ≡ length words.old }
    ensures read { (k : ℕ) → k < length words.new → (d : R)
        → R.number (get_or words.new k d) ≡ slice_index (map repr_of elements.now) (start + k) }
{
    read_each(words, &elements[start..start + words.len()]);
}

// The product by the other element.
struct Products;

impl<R: Stored, K: Many<R, R>> OnWords<R, K> for Products {
    ghost suffice = { λ long count. count ≤ long };

    ghost gives = { λ operation others k x y. y ≡ K.product x (slice_index others k) };

    #[inline(always)]
    fn least() -> usize {
        // To copy fewer takes longer than to multiply two at once saves.
        K::sizes::<u64x2>().multiplied.max(FEW)
    }

    #[inline(always)]
    fn result_at(&self, word: R, others: &[Element<R, K>], place: usize) -> R {
        K::multiply(word, others[place].repr)
    }

    #[inline(always)]
    fn change(&self, words: &mut [R], beside: &mut [R], others: &[Element<R, K>], start: usize) {
        read_from(beside, others, start);
        K::multiply_all::<u64x2>(words, beside);
    }

    ghost fewer_law = { λ long m n fewer enough. omega (arith, fewer, enough) };
}

// The product by a scalar.
#[derive(Drop)]
struct Multiples<R: Stored, K: FieldKernel<R>> {
    scalar: Element<R, K>,
}

impl<R: Stored, K: Many<R, R>> OnWords<R, K> for Multiples<R, K> {
    ghost suffice = { λ long count. Unit {0} };

    ghost gives = { λ operation others k x y. y ≡ K.product (repr_of operation.scalar) x };

    #[inline(always)]
    fn least() -> usize {
        K::sizes::<u64x2>().scaled
    }

    #[inline(always)]
    fn result_at(&self, word: R, _others: &[Element<R, K>], _place: usize) -> R {
        K::multiply(self.scalar.repr, word)
    }

    #[inline(always)]
    fn change(&self, words: &mut [R], _beside: &mut [R], _others: &[Element<R, K>], _start: usize) {
        K::multiply_all_by::<u64x2>(words, self.scalar.repr);
    }

    ghost fewer_law = { λ long m n fewer enough. tt };
}

// The sum with the product of a scalar and the other element.
#[derive(Drop)]
struct AddedMultiples<R: Stored, K: FieldKernel<R>> {
    scalar: Element<R, K>,
}

impl<R: Stored, K: Many<R, R>> OnWords<R, K> for AddedMultiples<R, K> {
    ghost suffice = { λ long count. count ≤ long };

    ghost gives = { λ operation others k x y. y ≡ bit_xor x (K.product (repr_of operation.scalar) (slice_index others k)) };

    #[inline(always)]
    fn least() -> usize {
        K::sizes::<u64x2>().scaled
    }

    #[inline(always)]
    fn result_at(&self, word: R, others: &[Element<R, K>], place: usize) -> R {
        word.xor(K::multiply(self.scalar.repr, others[place].repr))
    }

    #[inline(always)]
    fn change(&self, words: &mut [R], beside: &mut [R], others: &[Element<R, K>], start: usize) {
        read_from(beside, others, start);
        K::add_multiples::<u64x2>(words, beside, self.scalar.repr);
    }

    ghost fewer_law = { λ long m n fewer enough. omega (arith, fewer, enough) };
}

// The inverse, and 0 for 0.
struct Inverses;

impl<R: Stored, K: Many<R, R>> OnWords<R, K> for Inverses {
    ghost suffice = { λ long count. Unit {0} };

    ghost gives = { λ operation others k x y. IsInverseOrZero K.product x y };

    #[inline(always)]
    fn least() -> usize {
        K::sizes::<u64x2>().inverted
    }

    #[inline(always)]
    fn result_at(&self, word: R, _others: &[Element<R, K>], _place: usize) -> R {
        K::invert(word)
    }

    #[inline(always)]
    fn change(&self, words: &mut [R], _beside: &mut [R], _others: &[Element<R, K>], _start: usize) {
        K::invert_all::<u64x2>(words);
    }

    ghost fewer_law = { λ long m n fewer enough. tt };
}

/// The sum of the products of the elements of `left` by those of `right`, place by place. The slices are of one length.
pub(crate) fn dot_of_elements<R: Stored, K: Many<R, R>>(
    left: &[Element<R, K>],
    right: &[Element<R, K>],
) -> Element<R, K>
    requires { length left.now ≡ length right.now }
    ensures { repr_of result ≡ dot_of K.product repr_of left.now right.now }
{
    Element {
        repr: dot_of_words(left, right),
        field: PhantomData,
    }
}

// The word of that sum.
#[inline]
fn dot_of_words<R: Stored, K: Many<R, R>>(left: &[Element<R, K>], right: &[Element<R, K>]) -> R
    requires { length left.now ≡ length right.now }
    ensures sum { R.number result ≡ dot_of K.product repr_of left.now right.now }
    ensures fits { R.number result < 2 ^ K.width }
{
    K::dot_product::<u64x2, Element<R, K>>(left, right)
}

// The word of an element is read from its place.
impl<R: Stored, K: FieldKernel<R>> Reads<R> for Element<R, K> {
    ghost number = { repr_of };

    #[inline(always)]
    fn stored(self) -> R {
        self.repr
    }

    #[inline(always)]
    fn numbers_fit(places: &[Element<R, K>]) {}
}
