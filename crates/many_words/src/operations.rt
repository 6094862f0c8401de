// Operations on one element of a field and on two, which are applied at each word of a slice.
ghost use Rattle.std.specs.Prelude.{◌≡◌, ◌<◌, ◌^◌, ℕ, bit_xor};
ghost use Rattle.field_base.specs.Field.{IsInverseOrZero};
ghost use Rattle.field_base.specs.Powers.{power};

use crate::fields;
use field_base::{FieldKernel, Holds, Stored};

/// An operation on one element of the field of a kernel.
pub trait OnOne<R: Stored, W: Holds<R>, K: FieldKernel<R>> {
    // How the number of its result is related to that of its operand.
    ghost gives: { Self → ℕ → ℕ → Type 0 };

    /// Its result at an element.
    fn result_at(&self, word: W) -> W
        requires { W.number word < 2 ^ K.width }
        ensures { gives self.now (W.number word) (W.number result) };
}

/// An operation on two words of a field.
pub trait OnTwo<R: Stored, W: Holds<R>, K: FieldKernel<R>> {
    // How the number of its result is related to those of its operands.
    ghost gives: { Self → ℕ → ℕ → ℕ → Type 0 };

    /// Its result at two words.
    fn result_at(&self, left: W, right: W) -> W
        ensures { gives self.now (W.number left) (W.number right) (W.number result) };
}

/// The inverse, and 0 for 0.
pub struct Inverse;

impl<R: Stored, W: Holds<R>, K: FieldKernel<R>> OnOne<R, W, K> for Inverse {
    ghost gives = { λ operation x y. (y < 2 ^ K.width) × IsInverseOrZero K.product x y };

    #[inline(always)]
    fn result_at(&self, word: W) -> W {
        fields::invert::<R, W, K>(word)
    }
}

/// The square.
pub struct Square;

impl<R: Stored, W: Holds<R>, K: FieldKernel<R>> OnOne<R, W, K> for Square {
    ghost gives = { λ operation x y. y ≡ K.product x x };

    #[inline(always)]
    fn result_at(&self, word: W) -> W {
        fields::square::<R, W, K>(word)
    }
}

/// The power of an exponent; to the power of 0 it is 1.
#[derive(Drop)]
pub struct Power {
    /// The exponent.
    pub exponent: u64,
}

impl<R: Stored, W: Holds<R>, K: FieldKernel<R>> OnOne<R, W, K> for Power {
    ghost gives = { λ operation x y. y ≡ power 1 K.product x operation.exponent };

    #[inline(always)]
    fn result_at(&self, word: W) -> W {
        fields::raise::<R, W, K>(word, self.exponent)
    }
}

/// The product by a scalar.
#[derive(Drop)]
pub struct Scaled<W> {
    /// The scalar.
    pub scalar: W,
}

impl<R: Stored, W: Holds<R>, K: FieldKernel<R>> OnOne<R, W, K> for Scaled<W> {
    ghost gives = { λ operation x y. y ≡ K.product x (W.number operation.scalar) };

    #[inline(always)]
    fn result_at(&self, word: W) -> W {
        fields::multiply::<R, W, K>(word, self.scalar)
    }
}

/// The product.
pub struct Product;

impl<R: Stored, W: Holds<R>, K: FieldKernel<R>> OnTwo<R, W, K> for Product {
    ghost gives = { λ operation x y z. z ≡ K.product x y };

    #[inline(always)]
    fn result_at(&self, left: W, right: W) -> W {
        fields::multiply::<R, W, K>(left, right)
    }
}

/// The sum of the first word and a scalar times the second.
#[derive(Drop)]
pub struct ScaledSum<W> {
    /// The scalar.
    pub scalar: W,
}

impl<R: Stored, W: Holds<R>, K: FieldKernel<R>> OnTwo<R, W, K> for ScaledSum<W> {
    ghost gives = { λ operation x y z. z ≡ bit_xor x (K.product (W.number operation.scalar) y) };

    #[inline(always)]
    fn result_at(&self, left: W, right: W) -> W {
        fields::add::<R, W>(left, fields::multiply::<R, W, K>(self.scalar, right))
    }
}
