// What matrices compute with.
ghost use Rattle.std.specs.Prelude.{◌≡◌, ◌≢◌, ◌↔◌, ◌^◌, ◌<◌, ℕ, IsTrue, bit_xor, length, map};
ghost use Rattle.std.specs.Simd.Lanes.{zip2};
ghost use Rattle.field_base.specs.Field.{AreInverses, IsField};
ghost use Rattle.field_slices.specs.Matrices.{AreScaledSums};

use field_base::traits::Field;
use std::marker::PhantomData;

/// The arithmetic of a field of characteristic two, of which `Value` is what a place of a slice holds: an element, or a word that
/// stands for one. A value of this type names the field: of those whose product is chosen when a program runs it is one of many, and of
/// the others the only one.
pub trait Scalars: Copy {
    /// What a place holds.
    type Value: Copy;

    // The bits of the field, its product, and the number that a value stands for.
    ghost width: { Self → ℕ };

    ghost product: { Self → ℕ → ℕ → ℕ };

    ghost number: { Self → Self.Value → ℕ };

    /// The value 0.
    fn zero(self) -> Self::Value
        ensures { number self result ≡ 0 };

    /// The value 1.
    fn one(self) -> Self::Value
        ensures { number self result ≡ 1 };

    /// Whether the value is 0.
    fn is_zero(self, x: Self::Value) -> bool
        ensures { IsTrue result ↔ (number self x ≡ 0) };

    /// The sum.
    fn add(self, x: Self::Value, y: Self::Value) -> Self::Value
        ensures { number self result ≡ bit_xor (number self x) (number self y) };

    /// The product.
    fn multiply(self, x: Self::Value, y: Self::Value) -> Self::Value
        ensures { number self result ≡ product self (number self x) (number self y) };

    /// The inverse of a value that is not 0.
    fn invert(self, x: Self::Value) -> Self::Value
        requires { number self x ≢ 0 }
        ensures { product self (number self x) (number self result) ≡ 1 };

    /// Adds to each sum the product of `scalar` and the value at its place. Products and eliminations spend their time in it.
    fn add_scaled(self, sums: &mut [Self::Value], scalar: Self::Value, values: &[Self::Value])
        requires { length values.now ≡ length sums.old }
        ensures long { length sums.new ≡ length sums.old }
        ensures sums { AreScaledSums (product self) (number self scalar) (map (number self) values.now) (map (number self) sums.old)
            (map (number self) sums.new) };

    /// The square.
    #[inline(always)]
    fn square(self, x: Self::Value) -> Self::Value
        ensures { number self result ≡ product self (number self x) (number self x) }
    {
        self.multiply(x, x)
    }

    /// Adds to each value the other one at its place.
    #[inline(always)]
    fn add_each(self, values: &mut [Self::Value], others: &[Self::Value])
        requires { length others.now ≡ length values.old }
        ensures { map (number self) values.new ≡ zip2 bit_xor (map (number self) values.old) (map (number self) others.now) }
    {
        for place in 0..values.len() {
            values[place] = self.add(values[place], others[place]);
        }
    }

    /// Multiplies each value by the scalar.
    fn multiply_by(self, values: &mut [Self::Value], scalar: Self::Value)
        ensures { map (number self) values.new ≡ map (λ x. product self (number self scalar) x) (map (number self) values.old) };

    /// The least number of values whose inverses `invert_each` gives in less time than one inverse and three products a value take.
    #[inline(always)]
    fn least_inverted(self) -> usize {
        usize::MAX
    }

    /// Writes the inverse of each value, and 0 for 0.
    fn invert_each(self, values: &[Self::Value], inverses: &mut [Self::Value])
        requires { length inverses.old ≡ length values.now }
        ensures { AreInverses (product self) (map (number self) values.now) (map (number self) inverses.new) };

    ghost wide_law: { (field : Self) → 0 < width field };

    ghost field_law: { (field : Self) → IsField (width field) (product field) };

    ghost range_law: { (field : Self) (x : Self.Value) → number field x < 2 ^ width field };
}

/// The arithmetic of the elements of `F`: a place holds one.
#[derive(Clone, Copy)]
pub struct Elements<F>(PhantomData<F>);

impl<F> Elements<F> {
    /// That arithmetic.
    pub const fn new() -> Elements<F> {
        Elements(PhantomData)
    }
}

impl<F: Field> Scalars for Elements<F> {
    type Value = F;

    ghost width = { λ _. F.width };

    ghost product = { λ _. F.product };

    ghost number = { λ _. F.repr };

    fn zero(self) -> F {
        F::ZERO
    }

    fn one(self) -> F {
        F::ONE
    }

    fn is_zero(self, x: F) -> bool {
        x.is_zero()
    }

    fn add(self, x: F, y: F) -> F {
        x + y
    }

    fn multiply(self, x: F, y: F) -> F {
        x * y
    }

    fn invert(self, x: F) -> F {
        x.inverse()
    }

    fn add_scaled(self, sums: &mut [F], scalar: F, values: &[F]) {
        F::add_scaled(sums, scalar, values);
    }

    fn multiply_by(self, values: &mut [F], scalar: F) {
        F::multiply_by(values, scalar);
    }

    fn least_inverted(self) -> usize {
        F::LEAST_INVERTED
    }

    fn invert_each(self, values: &[F], inverses: &mut [F]) {
        F::invert_each(values, inverses);
    }

    ghost wide_law = { λ _. F.wide_law };

    ghost field_law = { λ _. F.field_law };

    ghost range_law = { λ _. F.range_law };
}
