// The arithmetic of a field on words, and what it computes on many of them. Calls are written over it: over kernels, whose field is known
// when a program is built, and over fields that a caller chooses.
ghost use Rattle.std.specs.Prelude.{◌≡◌, ◌↔◌, ◌%◌, ◌^◌, ◌<◌, IsTrue, bit_xor, length};
ghost use Rattle.field_base.specs.Field.{IsField, IsInverseOrZero};
ghost use Rattle.field_base.specs.Powers.{dot_of, power};
ghost use Rattle.many_words.specs.Fields.{WordField};
ghost use Rattle.many_words.specs.Words.{AreElements, Each, EachOfTwo, HoldInverses, IsElement};

mod kernels;

pub use crate::scalars::kernels::Words;
use many_words::Sizes;

/// The arithmetic of a field on words. A word is an element where it has no bits above the field.
pub trait ScalarWords: Copy {
    /// A word.
    type Word: Copy;

    /// The least number of words whose inverses take less than as a batch: by the inverse of one product, and three products each.
    const LEAST_INVERTED: usize;

    // The field: the number that a word is, and how numbers are multiplied.
    ghost field: { Self → WordField Self.Word };

    /// The word 0.
    fn zero(self) -> Self::Word
        ensures { (field self).number result ≡ 0 };

    /// The word 1, the one of the field.
    fn one(self) -> Self::Word
        ensures { (field self).number result ≡ 1 };

    /// Whether a word is 0.
    fn is_zero(self, x: Self::Word) -> bool
        ensures { IsTrue result ↔ ((field self).number x ≡ 0) };

    /// Whether a word is an element.
    fn is_element(self, x: Self::Word) -> bool
        ensures { IsTrue result ↔ IsElement (field self) x };

    /// Whether every word is an element.
    fn are_elements(self, words: &[Self::Word]) -> bool
        ensures { IsTrue result ↔ AreElements (field self) words.now };

    /// The word without its bits above the field.
    fn truncated(self, x: Self::Word) -> Self::Word
        ensures { (field self).number result ≡ (field self).number x % 2 ^ (field self).width };

    /// The sum.
    fn add(self, x: Self::Word, y: Self::Word) -> Self::Word
        ensures { (field self).number result ≡ bit_xor ((field self).number x) ((field self).number y) };

    /// The product.
    fn multiply(self, x: Self::Word, y: Self::Word) -> Self::Word
        ensures { (field self).number result ≡ (field self).times ((field self).number x) ((field self).number y) };

    /// The square.
    fn square(self, x: Self::Word) -> Self::Word
        ensures { (field self).number result ≡ (field self).times ((field self).number x) ((field self).number x) };

    /// The square root of an element.
    fn square_root(self, x: Self::Word) -> Self::Word
        requires { IsElement (field self) x }
        ensures fits { IsElement (field self) result }
        ensures root { (field self).times ((field self).number result) ((field self).number result) ≡ (field self).number x };

    /// The power of the exponent; to the power of 0 it is 1.
    fn raise(self, x: Self::Word, exponent: u64) -> Self::Word
        ensures { (field self).number result ≡ power 1 (field self).times ((field self).number x) exponent };

    /// The inverse of an element, and 0 for 0.
    fn invert(self, x: Self::Word) -> Self::Word
        requires { IsElement (field self) x }
        ensures fits { IsElement (field self) result }
        ensures inverse { IsInverseOrZero (field self).times ((field self).number x) ((field self).number result) };

    /// From how many words on the calls that follow are made: fewer are computed one after another.
    fn sizes(self) -> Sizes
        ensures { 0 < result.block };

    /// Multiplies each word by the other word at its place. The slices are of one length.
    fn multiply_each(self, words: &mut [Self::Word], others: &[Self::Word])
        requires { length others.now ≡ length words.old }
        ensures long { length words.new ≡ length words.old }
        ensures products { EachOfTwo (field self) (λ x y z. z ≡ (field self).times x y) words.old others.now words.new };

    /// Multiplies each word by the scalar, an element.
    fn multiply_by(self, words: &mut [Self::Word], scalar: Self::Word)
        requires { IsElement (field self) scalar }
        ensures long { length words.new ≡ length words.old }
        ensures products { Each (field self) (λ x y. y ≡ (field self).times x ((field self).number scalar)) words.old words.new };

    /// Writes the product of each word and the scalar, an element. The slices are of one length.
    fn write_multiples(self, words: &[Self::Word], scalar: Self::Word, products: &mut [Self::Word])
        requires same { length words.now ≡ length products.old }
        requires scalar { IsElement (field self) scalar }
        requires elements { AreElements (field self) words.now }
        ensures { Each (field self) (λ x y. y ≡ (field self).times x ((field self).number scalar)) words.now products.new };

    /// Adds to each sum the product of the scalar, an element, and the word at its place. The slices are of one length.
    fn add_scaled(self, sums: &mut [Self::Word], scalar: Self::Word, words: &[Self::Word])
        requires same { length words.now ≡ length sums.old }
        requires scalar { IsElement (field self) scalar }
        ensures long { length sums.new ≡ length sums.old }
        ensures sums { EachOfTwo (field self) (λ sum x next. next ≡ bit_xor sum ((field self).times ((field self).number scalar) x))
            sums.old words.now sums.new };

    /// Raises each word, an element, to the power of the exponent; to the power of 0 it is 1.
    fn raise_each(self, words: &mut [Self::Word], exponent: u64)
        requires { AreElements (field self) words.old }
        ensures long { length words.new ≡ length words.old }
        ensures powers { Each (field self) (λ x y. y ≡ power 1 (field self).times x exponent) words.old words.new };

    /// Leaves the inverse of each word, an element, and 0 of 0.
    fn invert_each(self, words: &mut [Self::Word])
        requires { AreElements (field self) words.old }
        ensures long { length words.new ≡ length words.old }
        ensures inverses { HoldInverses (field self) words.old words.new };

    /// The sum of the products at each place, which is 0 of none. The slices are of one length.
    fn dot_product(self, left: &[Self::Word], right: &[Self::Word]) -> Self::Word
        requires { length left.now ≡ length right.now }
        ensures { (field self).number result ≡ dot_of (field self).times (field self).number left.now right.now };

    ghost wide_law: { (words : Self) → 0 < (field words).width };

    ghost field_law: { (words : Self) → IsField (field words).width (field words).times };
}
