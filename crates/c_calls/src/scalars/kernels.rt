// The words of the fields of kernels.
ghost use Rattle.std.specs.Prelude.{◌≡◌, ⊤};
ghost use Rattle.many_words.specs.Fields.{field_of};

use crate::scalars::ScalarWords;
use crate::slices::are_elements;
use bit_slices::Vector;
use field_base::{Holds, Stored};
use ghash_slices::Width;
use many_words::{Many, Sizes, fields};
use std::alloc::AllocError;
use std::marker::PhantomData;

/// The words `W` of the field of the kernel `K`, many of which are computed in vectors `V`.
pub struct Words<R, W, K, V>(PhantomData<(R, W, K, V)>);

impl<R, W, K, V> Words<R, W, K, V> {
    /// That arithmetic.
    pub const fn new() -> Words<R, W, K, V> {
        Words(PhantomData)
    }
}

impl<R, W, K, V> Clone for Words<R, W, K, V> {
    ghost is_clone = { λ x y. y ≡ x };

    ghost is_infallible = { λ _. ⊤ };

    fn clone(&self) -> Result<Words<R, W, K, V>, AllocError> {
        Ok(*self)
    }
}

impl<R, W, K, V> Copy for Words<R, W, K, V> {}

impl<R: Stored, W: Holds<R>, K: Many<R, W>, V: Width + Vector> ScalarWords for Words<R, W, K, V> {
    type Word = W;

    const LEAST_INVERTED: usize = K::LEAST_IN_BATCH;

    ghost field = { λ _. field_of W.number K.width K.product K.generator };

    #[inline(always)]
    fn zero(self) -> W {
        fields::zero::<R, W>()
    }

    #[inline(always)]
    fn one(self) -> W {
        fields::one::<R, W>()
    }

    #[inline(always)]
    fn is_zero(self, x: W) -> bool {
        fields::is_zero::<R, W>(x)
    }

    #[inline(always)]
    fn is_element(self, x: W) -> bool {
        fields::is_element::<R, W, K>(x)
    }

    #[inline]
    fn are_elements(self, words: &[W]) -> bool {
        are_elements::<R, W, K>(words)
    }

    #[inline(always)]
    fn truncated(self, x: W) -> W {
        W::of_stored(K::truncate(x.stored()))
    }

    #[inline(always)]
    fn add(self, x: W, y: W) -> W {
        fields::add::<R, W>(x, y)
    }

    #[inline(always)]
    fn multiply(self, x: W, y: W) -> W {
        fields::multiply::<R, W, K>(x, y)
    }

    #[inline(always)]
    fn square(self, x: W) -> W {
        fields::square::<R, W, K>(x)
    }

    #[inline(always)]
    fn square_root(self, x: W) -> W {
        fields::sqrt::<R, W, K>(x)
    }

    #[inline(always)]
    fn raise(self, x: W, exponent: u64) -> W {
        fields::raise::<R, W, K>(x, exponent)
    }

    #[inline(always)]
    fn invert(self, x: W) -> W {
        fields::invert::<R, W, K>(x)
    }

    #[inline(always)]
    fn sizes(self) -> Sizes {
        K::sizes::<V>()
    }

    #[inline]
    fn multiply_each(self, words: &mut [W], others: &[W]) {
        many_words::multiply::<R, W, K, V>(words, others);
    }

    #[inline]
    fn multiply_by(self, words: &mut [W], scalar: W) {
        many_words::multiply_by::<R, W, K, V>(words, scalar);
    }

    #[inline]
    fn write_multiples(self, words: &[W], scalar: W, products: &mut [W]) {
        K::write_multiples::<V>(words, scalar, products);
    }

    #[inline]
    fn add_scaled(self, sums: &mut [W], scalar: W, words: &[W]) {
        many_words::add_scaled::<R, W, K, V>(sums, scalar, words);
    }

    #[inline]
    fn raise_each(self, words: &mut [W], exponent: u64) {
        many_words::raise::<R, W, K, V>(words, exponent);
    }

    #[inline]
    fn invert_each(self, words: &mut [W]) {
        many_words::invert::<R, W, K, V>(words);
    }

    #[inline]
    fn dot_product(self, left: &[W], right: &[W]) -> W {
        W::of_stored(K::dot_product::<V, W>(left, right))
    }

    ghost wide_law = { λ _. K.wide_law };

    ghost field_law = { λ _. K.field_law };
}
