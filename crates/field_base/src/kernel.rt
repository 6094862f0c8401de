// Fields by their arithmetic on the words that store their elements.
ghost use Rattle.std.specs.Prelude.{◌≡◌, ◌≢◌, ◌<◌, ◌≤◌, ◌^◌, ◌%◌, ℕ, bit_xor, refl};
ghost use Rattle.field_base.specs.Field.{IsField};
ghost use Rattle.field_base.specs.Orders.{HasFullOrder};
ghost use Rattle.field_base.specs.Powers.{repeated_square};
ghost use Rattle.field_base.specs.Tower.{root};
ghost use Rattle.field_base.specs.TowerBasis.{AreEvenCantorVectors, IsIsomorphism, tower_generator};

use crate::word::{Stored, Unsigned};

/// A field of 2 to the power of `bits` elements, by its arithmetic on words. Words stand for elements by their numbers: an
/// element is a word whose number has no bit above the field. A product reads the low bits of its operands alone, so that
/// products and squares take any words.
pub trait FieldKernel<R: Stored> {
    // The bits of an element, the product over numbers, and the number of the generator.
    ghost width: { ℕ };

    ghost product: { ℕ → ℕ → ℕ };

    ghost generator: { ℕ };

    /// The name under which `Debug` shows an element.
    const NAME: &'static str;

    /// A generator: every nonzero element is a power of it.
    const GENERATOR: R;

    ghost GENERATOR: { R };

    // A sum of products is kept in two words, its low and its high part; this is the number of the element that it reduces to.
    ghost reduced: { R → R → ℕ };

    // Facts that stand above the functions, so that the terms of other impls can name them.
    ghost field_law: { IsField width product };

    ghost wide_law: { 0 < width };

    ghost generator_fits: { generator < 2 ^ width };

    /// The bits of an element.
    fn bits() -> usize
        ensures { result ≡ width };

    /// The word without its bits above the field.
    fn truncate(x: R) -> R
        ensures { R.number result ≡ R.number x % 2 ^ width };

    /// The product.
    fn multiply(x: R, y: R) -> R
        ensures { R.number result ≡ product (R.number x) (R.number y) };

    /// The square.
    fn square(x: R) -> R
        ensures { R.number result ≡ product (R.number x) (R.number x) };

    /// The inverse of an element, by which the product is 1, and 0 for 0.
    fn invert(x: R) -> R
        requires { R.number x < 2 ^ width }
        ensures fits { R.number result < 2 ^ width }
        ensures zero { R.number x ≡ 0 → R.number result ≡ 0 }
        ensures inverse { R.number x ≢ 0 → product (R.number x) (R.number result) ≡ 1 };

    /// The square root of an element, whose square is the element.
    fn sqrt(x: R) -> R
        requires { R.number x < 2 ^ width }
        ensures fits { R.number result < 2 ^ width }
        ensures root { product (R.number result) (R.number result) ≡ R.number x };

    /// An element y and a count c below the bits of an element, such that c squarings of y give what `count` squarings of
    /// `x` give.
    fn reduce_squarings(x: R, count: usize) -> (R, usize)
        requires { R.number x < 2 ^ width }
        ensures fits { R.number result.0 < 2 ^ width }
        ensures few { result.1 < width }
        ensures squarings { repeated_square 1 product result.1 (R.number result.0) ≡ repeated_square 1 product count (R.number x) };

    /// The sum of no products, as two words: a sum of products is reduced once, at its end.
    fn no_products() -> (R, R)
        ensures { reduced result.0 result.1 ≡ 0 };

    /// The sum of two words, and the product of `x` and `y`.
    fn add_product(low: R, high: R, x: R, y: R) -> (R, R)
        ensures { reduced result.0 result.1 ≡ bit_xor (reduced low high) (product (R.number x) (R.number y)) };

    /// The sum of two words, and the products of `a` by `p` and of `b` by `q`, which a kernel over vectors takes at once.
    #[inline]
    fn add_two_products(low: R, high: R, a: R, b: R, p: R, q: R) -> (R, R)
        ensures { reduced result.0 result.1
            ≡ bit_xor (bit_xor (reduced low high) (product (R.number a) (R.number p))) (product (R.number b) (R.number q)) }
    {
        let (first_low, first_high) = Self::add_product(low, high, a, p);
        Self::add_product(first_low, first_high, b, q)
    }

    /// The element that the sum reduces to.
    fn reduce_sum(low: R, high: R) -> R
        ensures { R.number result ≡ reduced low high };

    ghost room_law: { width ≤ R.bits };

    ghost reduced_fits: { (low high : R) → reduced low high < 2 ^ width };

    ghost generator_is: { GENERATOR ≡ R.of_number generator };

    ghost generator_nonzero: { generator ≢ 0 };

    ghost generator_law: { width ≤ 16 → HasFullOrder width product generator };
}

/// The kernel of a field whose bits are a power of two: a level of the tower, or one in another basis.
pub trait LevelKernel<R: Unsigned>: FieldKernel<R> {
    // The change of basis from the level of the tower, and the level's Cantor vectors.
    ghost basis: { ℕ → ℕ };

    ghost cantor: { ℕ → ℕ };

    /// The binary logarithm of the bits.
    const LOG_BITS: usize;

    ghost LOG_BITS: { ℕ };

    /// The product by the image of the root that the level of the tower adjoins.
    fn multiply_by_alpha(x: R) -> R
        ensures { R.number result ≡ Self.product (basis (root LOG_BITS)) (R.number x) };

    /// The image of Cantor vector i of the level.
    fn cantor_vector(i: usize) -> R
        requires { i < Self.width }
        ensures fits { R.number result < 2 ^ Self.width }
        ensures vector { R.number result ≡ basis (cantor i) };

    ghost bits_law: { Self.width ≡ 2 ^ LOG_BITS };

    ghost basis_law: { IsIsomorphism LOG_BITS Self.width Self.product basis };

    ghost cantor_law: { AreEvenCantorVectors LOG_BITS cantor };

    ghost generator_image_law: { Self.generator ≡ basis (tower_generator LOG_BITS) };
}

/// A field `Self`, stored in `R`, that has an image of the field `J`, stored in `S`: `J` is a subfield in its own basis or
/// another. Every field contains itself.
pub trait Contains<R: Stored, S: Stored, J: FieldKernel<S>>: FieldKernel<R> {
    // The image of a number.
    ghost image: { ℕ → ℕ };

    /// The image of an element.
    fn embed(x: S) -> R
        requires { S.number x < 2 ^ J.width }
        ensures fits { R.number result < 2 ^ Self.width }
        ensures image { R.number result ≡ image (S.number x) };
}

impl<R: Stored, K: FieldKernel<R>> Contains<R, R, K> for K {
    ghost image = { λ n. n };

    fn embed(x: R) -> R {
        x
    }
}

/// The field of the results of operators between elements of `Self` and of `J`: it contains both. A field that contains
/// the other is that field itself; where the smaller field stands on the left, a marker of two lines names the larger.
pub trait Joins<R: Stored, S: Stored, J: FieldKernel<S>>: FieldKernel<R> {
    /// The word that stores the elements of `Field`.
    type Upper: Stored;

    /// The field that contains both.
    type Field: Contains<Self::Upper, R, Self> + Contains<Self::Upper, S, J>;
}

impl<R: Stored, S: Stored, J: FieldKernel<S>, K: Contains<R, S, J>> Joins<R, S, J> for K {
    type Upper = R;

    type Field = K;
}
