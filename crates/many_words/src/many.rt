// What computes many words of a field at once. Each call has a body over any field, which takes one word after another; a field that has a
// better one for many words names it, and the least number of words that it is better for. Vectors `V` are those in which a field computes
// many words, where it does.
ghost use Rattle.std.specs.Prelude.{◌≡◌, ◌<◌, ◌^◌, ℕ, bit_xor, length};
ghost use Rattle.field_base.specs.Powers.{dot_of};
ghost use Rattle.many_words.specs.Fields.{field_of};
ghost use Rattle.many_words.specs.Words.{AreElements, Each, EachOfTwo, HoldInverses};

mod kernels;
mod levels;

use crate::fields;
use crate::one_by_one::{change_all, change_all_by, multiply_each_by};
use crate::operations::{Inverse, Product, ScaledSum};
use bit_slices::Vector;
use field_base::{FieldKernel, Holds, Reads, Stored};
use ghash_slices::Width;
use std::simd::prelude::*;

/// Crossover lengths: shorter slices go word by word, without a copy or a block. So do all slices where a field has no better body.
#[derive(Clone, Copy)]
pub struct Sizes {
    /// The least number of words that are multiplied by the words at their places.
    pub multiplied: usize,
    /// How many of these a block has: the words after whole blocks are multiplied in narrow vectors.
    pub block: usize,
    /// The least number of words that are multiplied by one scalar.
    pub scaled: usize,
    /// The least number of words that are inverted.
    pub inverted: usize,
}

/// A field, and what it computes on many of its words `W` at once: its stored words, or those in which others hold them. A call at a field names
/// these methods, and not the planes or slices of bits behind them: naming those takes seconds in each function, and more with each level.
pub trait Many<R: Stored, W: Holds<R>>: FieldKernel<R> + Sized {
    /// The least number of words whose inverses take less than as a batch: by the inverse of one product, and three products each.
    const LEAST_IN_BATCH: usize = 0;

    /// The crossover lengths in vectors `V`.
    #[inline(always)]
    fn sizes<V: Vector>() -> Sizes
        ensures { 0 < result.block }
    {
        Sizes {
            multiplied: usize::MAX,
            block: 1,
            scaled: usize::MAX,
            inverted: usize::MAX,
        }
    }

    /// Multiplies each product by the word at its place. The slices are of one length.
    #[inline]
    fn multiply_all<V: Width + Vector>(products: &mut [W], words: &[W])
        requires same { length words.now ≡ length products.old }
        ensures long { length products.new ≡ length products.old }
        ensures products { EachOfTwo (field_of W.number Self.width Self.product Self.generator)
            (λ x y z. z ≡ Self.product x y) products.old words.now products.new }
    {
        change_all_by::<R, W, Self, Product>(products, words, &Product);
    }

    /// Multiplies each word by the scalar, an element.
    #[inline]
    fn multiply_all_by<V: Width>(words: &mut [W], scalar: W)
        requires { W.number scalar < 2 ^ Self.width }
        ensures long { length words.new ≡ length words.old }
        ensures products { Each (field_of W.number Self.width Self.product Self.generator)
            (λ x y. y ≡ Self.product x (W.number scalar)) words.old words.new }
    {
        multiply_each_by::<R, W, Self>(words, scalar);
    }

    /// Writes the product of each word and the scalar, an element. The slices are of one length.
    #[inline]
    fn write_multiples<V: Width>(words: &[W], scalar: W, products: &mut [W])
        requires same { length words.now ≡ length products.old }
        requires scalar { W.number scalar < 2 ^ Self.width }
        ensures { Each (field_of W.number Self.width Self.product Self.generator)
            (λ x y. y ≡ Self.product x (W.number scalar)) words.now products.new }
    {
        products.copy_from_slice(words);
        Self::multiply_all_by::<V>(products, scalar);
    }

    /// Adds to each sum the product of the scalar, an element, and the word at its place. The slices are of one length.
    #[inline]
    fn add_multiples<V: Width>(sums: &mut [W], words: &[W], scalar: W)
        requires same { length words.now ≡ length sums.old }
        requires scalar { W.number scalar < 2 ^ Self.width }
        ensures { EachOfTwo (field_of W.number Self.width Self.product Self.generator)
            (λ sum x next. next ≡ bit_xor sum (Self.product (W.number scalar) x)) sums.old words.now sums.new }
    {
        change_all_by::<R, W, Self, ScaledSum<W>>(sums, words, &ScaledSum { scalar });
    }

    /// Leaves the inverse of each word, an element, and 0 of 0.
    #[inline]
    fn invert_all<V: Vector>(words: &mut [W])
        requires { AreElements (field_of W.number Self.width Self.product Self.generator) words.old }
        ensures long { length words.new ≡ length words.old }
        ensures inverses { HoldInverses (field_of W.number Self.width Self.product Self.generator) words.old words.new }
    {
        change_all::<R, W, Self, Inverse>(words, &Inverse);
    }

    /// The sum of the products at each place, which is 0 of none. The slices are of one length.
    #[inline]
    fn dot_product<V: Width + Vector, P: Reads<R>>(left: &[P], right: &[P]) -> R
        requires { length left.now ≡ length right.now }
        ensures { R.number result ≡ dot_of Self.product P.number left.now right.now }
    {
        fields::dot_product::<R, P, Self>(left, right)
    }
}

/// Multiplies each product by the word at its place. The slices are of one length. Whole blocks are multiplied in vectors `V`, and the
/// words behind them in narrow ones, whose blocks are shorter.
#[inline]
pub fn multiply<R: Stored, W: Holds<R>, K: Many<R, W>, V: Width + Vector>(
    products: &mut [W],
    words: &[W],
)
    requires same { length words.now ≡ length products.old }
    ensures long { length products.new ≡ length products.old }
    ensures products { EachOfTwo (field_of W.number K.width K.product K.generator) (λ x y z. z ≡ K.product x y) products.old words.now
        products.new }
{
    let sizes = K::sizes::<V>();
    if products.len() < sizes.multiplied {
        change_all_by::<R, W, K, Product>(products, words, &Product);
        return;
    }
    let whole = words.len() - words.len() % sizes.block;
    let (first, last) = words.split_at(whole);
    let (blocks, rest) = products.split_at_mut(whole);
    K::multiply_all::<V>(blocks, first);
    K::multiply_all::<u64x2>(rest, last);
}

/// Multiplies each word by the scalar, an element.
#[inline]
pub fn multiply_by<R: Stored, W: Holds<R>, K: Many<R, W>, V: Width>(words: &mut [W], scalar: W)
    requires { W.number scalar < 2 ^ K.width }
    ensures long { length words.new ≡ length words.old }
    ensures products { Each (field_of W.number K.width K.product K.generator) (λ x y. y ≡ K.product x (W.number scalar)) words.old
        words.new }
{
    if words.len() < K::sizes::<u64x2>().scaled {
        multiply_each_by::<R, W, K>(words, scalar);
    } else {
        K::multiply_all_by::<V>(words, scalar);
    }
}

/// Adds to each sum the product of the scalar, an element, and the word at its place. The slices are of one length.
#[inline]
pub fn add_scaled<R: Stored, W: Holds<R>, K: Many<R, W>, V: Width>(
    sums: &mut [W],
    scalar: W,
    words: &[W],
)
    requires same { length words.now ≡ length sums.old }
    requires scalar { W.number scalar < 2 ^ K.width }
    ensures { EachOfTwo (field_of W.number K.width K.product K.generator)
        (λ sum x next. next ≡ bit_xor sum (K.product (W.number scalar) x)) sums.old words.now sums.new }
{
    if sums.len() < K::sizes::<u64x2>().scaled {
        change_all_by::<R, W, K, ScaledSum<W>>(sums, words, &ScaledSum { scalar });
    } else {
        K::add_multiples::<V>(sums, words, scalar);
    }
}

/// Leaves the inverse of each word, an element, and 0 of 0: whole blocks in vectors `V`, and the words behind them in narrow ones.
#[inline]
pub fn invert<R: Stored, W: Holds<R>, K: Many<R, W>, V: Vector>(words: &mut [W])
    requires { AreElements (field_of W.number K.width K.product K.generator) words.old }
    ensures long { length words.new ≡ length words.old }
    ensures inverses { HoldInverses (field_of W.number K.width K.product K.generator) words.old words.new }
{
    if words.len() < K::sizes::<V>().inverted {
        change_all::<R, W, K, Inverse>(words, &Inverse);
        return;
    }
    let whole = words.len() - words.len() % V::lanes();
    let (blocks, rest) = words.split_at_mut(whole);
    K::invert_all::<V>(blocks);
    K::invert_all::<u64x2>(rest);
}
