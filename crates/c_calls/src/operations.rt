// Operations on one element of a field and on two that calls over slices apply.
ghost use Rattle.std.specs.Prelude.{◌≡◌, ◌<◌, ◌^◌, ℕ, bit_xor};
ghost use Rattle.field_base.specs.Field.{IsInverseOrZero};
ghost use Rattle.field_base.specs.Powers.{power};
ghost use Rattle.many_words.specs.Words.{IsElement};

use crate::scalars::ScalarWords;
pub use many_words::operations::{Inverse, Power, Product, Scaled, ScaledSum, Square};

/// An operation on one element of a field.
pub trait AtOne<S: ScalarWords> {
    // How the number of its result is related to that of its operand.
    ghost gives: { Self → S → ℕ → ℕ → Type 0 };

    /// Its result at an element.
    fn at(&self, field: S, x: S::Word) -> S::Word
        requires { IsElement (S.field field) x }
        ensures { gives self.now field ((S.field field).number x) ((S.field field).number result) };
}

/// An operation on two elements of a field.
pub trait AtTwo<S: ScalarWords> {
    // How the number of its result is related to those of its operands.
    ghost gives: { Self → S → ℕ → ℕ → ℕ → Type 0 };

    /// Its result at two elements.
    fn at_two(&self, field: S, x: S::Word, y: S::Word) -> S::Word
        requires left { IsElement (S.field field) x }
        requires right { IsElement (S.field field) y }
        ensures { gives self.now field ((S.field field).number x) ((S.field field).number y) ((S.field field).number result) };
}

/// The square root.
pub struct SquareRoot;

/// The sum.
pub struct Sum;

impl<S: ScalarWords> AtOne<S> for Square {
    ghost gives = { λ operation field x y. y ≡ (S.field field).times x x };

    #[inline(always)]
    fn at(&self, field: S, x: S::Word) -> S::Word {
        field.square(x)
    }
}

impl<S: ScalarWords> AtOne<S> for SquareRoot {
    ghost gives = { λ operation field x y. (y < 2 ^ (S.field field).width) × ((S.field field).times y y ≡ x) };

    #[inline(always)]
    fn at(&self, field: S, x: S::Word) -> S::Word {
        field.square_root(x)
    }
}

impl<S: ScalarWords> AtOne<S> for Power {
    ghost gives = { λ operation field x y. y ≡ power 1 (S.field field).times x operation.exponent };

    #[inline(always)]
    fn at(&self, field: S, x: S::Word) -> S::Word {
        field.raise(x, self.exponent)
    }
}

impl<S: ScalarWords> AtOne<S> for Inverse {
    ghost gives = { λ operation field x y. (y < 2 ^ (S.field field).width) × IsInverseOrZero (S.field field).times x y };

    #[inline(always)]
    fn at(&self, field: S, x: S::Word) -> S::Word {
        field.invert(x)
    }
}

impl<S: ScalarWords> AtOne<S> for Scaled<S::Word> {
    ghost gives = { λ operation field x y. y ≡ (S.field field).times x ((S.field field).number operation.scalar) };

    #[inline(always)]
    fn at(&self, field: S, x: S::Word) -> S::Word {
        field.multiply(x, self.scalar)
    }
}

impl<S: ScalarWords> AtTwo<S> for Sum {
    ghost gives = { λ operation field x y z. z ≡ bit_xor x y };

    #[inline(always)]
    fn at_two(&self, field: S, x: S::Word, y: S::Word) -> S::Word {
        field.add(x, y)
    }
}

impl<S: ScalarWords> AtTwo<S> for Product {
    ghost gives = { λ operation field x y z. z ≡ (S.field field).times x y };

    #[inline(always)]
    fn at_two(&self, field: S, x: S::Word, y: S::Word) -> S::Word {
        field.multiply(x, y)
    }
}
