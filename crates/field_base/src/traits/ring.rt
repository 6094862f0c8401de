// Rings of characteristic two.
ghost use Rattle.std.specs.Prelude.{◌≡◌, ◌↔◌, ◌*◌, ◌%◌, ◌==◌, ℕ, length, map, IsTrue, IfOk, bit_xor, replicate, List, if◌then◌else◌};
ghost use Rattle.std.specs.Simd.Lanes.{zip2};
ghost use Rattle.field_base.specs.declared.gf2.Gf2.{Gf2};
ghost use Rattle.field_base.specs.Bit.{bit_number};
ghost use Rattle.field_base.specs.Operators.{Gives};
ghost use Rattle.field_base.specs.Powers.{power, repeated_square, sum_of, product_of, dot_of, parity};

use crate::gf2::Gf2;
use crate::traits::represented::Represented;
use std::alloc::{AllocError, Allocator};
use std::fmt::Debug;
use std::iter::{Product, Sum};
use std::ops::{AddAssign, MulAssign, Neg, Sub, SubAssign};

/// A commutative ring of characteristic two: a field, or a packing of elements.
pub trait PrimeCharacteristicRing: Represented
    + Debug
    + Default
    + PartialEq
    + Eq
    + From<Gf2>
    + AddAssign<Self>
    + Sub<Self, Output = Self>
    + SubAssign<Self>
    + Neg<Output = Self>
    + MulAssign<Self>
    + Sum<Self>
    + Product<Self> {
    /// The field of the ring's characteristic: GF(2).
    type PrimeSubfield;

    /// The element 0.
    const ZERO: Self;

    ghost ZERO: { Self };

    /// The element 1.
    const ONE: Self;

    ghost ONE: { Self };

    /// The element 1 + 1, which is 0.
    const TWO: Self;

    ghost TWO: { Self };

    /// The element -1, which is 1.
    const NEG_ONE: Self;

    ghost NEG_ONE: { Self };

    /// The ring's 0 or 1 for the bit 0 or 1.
    final fn from_prime_subfield(bit: Gf2) -> Self
        ensures { Self.repr result ≡ bit_number bit * Self.unit }
    {
        Self::from_bool(bit.is_set())
    }

    /// 1 for true, and 0 for false.
    final fn from_bool(b: bool) -> Self
        ensures { Self.repr result ≡ (if b then Self.unit else 0) }
    {
        if b { Self::ONE } else { Self::ZERO }
    }

    /// The number as a sum of ones: 1 for an odd number, and 0 for an even one.
    final fn from_u8(n: u8) -> Self
        ensures { Self.repr result ≡ n % 2 * Self.unit }
    {
        Self::from_bool(n % 2 == 1)
    }

    /// The number as a sum of ones: 1 for an odd number, and 0 for an even one.
    final fn from_u16(n: u16) -> Self
        ensures { Self.repr result ≡ n % 2 * Self.unit }
    {
        Self::from_bool(n % 2 == 1)
    }

    /// The number as a sum of ones: 1 for an odd number, and 0 for an even one.
    final fn from_u32(n: u32) -> Self
        ensures { Self.repr result ≡ n % 2 * Self.unit }
    {
        Self::from_bool(n % 2 == 1)
    }

    /// The number as a sum of ones: 1 for an odd number, and 0 for an even one.
    final fn from_u64(n: u64) -> Self
        ensures { Self.repr result ≡ n % 2 * Self.unit }
    {
        Self::from_bool(n % 2 == 1)
    }

    /// The number as a sum of ones: 1 for an odd number, and 0 for an even one.
    final fn from_u128(n: u128) -> Self
        ensures { Self.repr result ≡ n % 2 * Self.unit }
    {
        Self::from_bool(n % 2 == 1)
    }

    /// The number as a sum of ones: 1 for an odd number, and 0 for an even one.
    final fn from_i8(n: i8) -> Self
        ensures { Self.repr result ≡ parity n * Self.unit }
    {
        Self::from_bool(n % 2 != 0)
    }

    /// The number as a sum of ones: 1 for an odd number, and 0 for an even one.
    final fn from_i16(n: i16) -> Self
        ensures { Self.repr result ≡ parity n * Self.unit }
    {
        Self::from_bool(n % 2 != 0)
    }

    /// The number as a sum of ones: 1 for an odd number, and 0 for an even one.
    final fn from_i32(n: i32) -> Self
        ensures { Self.repr result ≡ parity n * Self.unit }
    {
        Self::from_bool(n % 2 != 0)
    }

    /// The number as a sum of ones: 1 for an odd number, and 0 for an even one.
    final fn from_i64(n: i64) -> Self
        ensures { Self.repr result ≡ parity n * Self.unit }
    {
        Self::from_bool(n % 2 != 0)
    }

    /// The number as a sum of ones: 1 for an odd number, and 0 for an even one.
    final fn from_i128(n: i128) -> Self
        ensures { Self.repr result ≡ parity n * Self.unit }
    {
        Self::from_bool(n % 2 != 0)
    }

    /// The element twice, which is 0.
    final fn double(&self) -> Self
        ensures { Self.repr result ≡ 0 }
    {
        Self::ZERO
    }

    /// The element times itself.
    fn square(&self) -> Self
        ensures { Self.repr result ≡ Self.product (Self.repr self.now) (Self.repr self.now) }
    {
        *self * *self
    }

    /// The sum of both, as the exclusive or of two elements that are 0 or 1.
    final fn xor(&self, other: &Self) -> Self
        ensures { Self.repr result ≡ bit_xor (Self.repr self.now) (Self.repr other.now) }
    {
        *self + *other
    }

    /// (1 + x) y for x the element and y the other: "y and not x" of two elements that are 0 or 1.
    final fn andn(&self, other: &Self) -> Self
        ensures { Self.repr result ≡ Self.product (bit_xor Self.unit (Self.repr self.now)) (Self.repr other.now) }
    {
        (Self::ONE + *self) * *other
    }

    /// x² + x, which is 0 for 0 and 1.
    final fn bool_check(&self) -> Self
        ensures { Self.repr result ≡ bit_xor (Self.product (Self.repr self.now) (Self.repr self.now)) (Self.repr self.now) }
    {
        self.square() + *self
    }

    /// The element times 2 to the power of the exponent: itself for the exponent 0, and else 0.
    final fn mul_2exp_u64(&self, exponent: u64) -> Self
        ensures { Self.repr result ≡ (if exponent == 0 then Self.repr self.now else 0) }
    {
        if exponent == 0 { *self } else { Self::ZERO }
    }

    /// The element to the power of the exponent; to the power of 0 it is 1.
    final fn exp_u64(&self, exponent: u64) -> Self
        ensures { Self.repr result ≡ power Self.unit Self.product (Self.repr self.now) exponent }
    {
        let mut base = *self;
        let mut rest = exponent;
        let mut value = Self::ONE;
        while rest != 0 {
            if rest % 2 == 1 {
                value = value * base;
            }
            base = base.square();
            rest /= 2;
        }
        value
    }

    /// The element squared `count` times.
    fn exp_power_of_2(&self, count: usize) -> Self
        ensures { Self.repr result ≡ repeated_square Self.unit Self.product count (Self.repr self.now) }
    {
        let mut value = *self;
        for _ in 0..count {
            value = value.square();
        }
        value
    }

    /// The sum of the products of the elements of both slices, place by place; of empty slices it is 0.
    fn dot_product_of_slices(left: &[Self], right: &[Self]) -> Self
        requires { length left.now ≡ length right.now }
        ensures { Self.repr result ≡ dot_of Self.product Self.repr left.now right.now }
    {
        let mut sum = Self::ZERO;
        for place in 0..left.len() {
            sum = sum + left[place] * right[place];
        }
        sum
    }

    /// Multiplies each value by `scalar`.
    fn multiply_by(values: &mut [Self], scalar: Self)
        ensures { map Self.repr values.new ≡ map (λ x. Self.product (Self.repr scalar) x) (map Self.repr values.old) }
    {
        for place in 0..values.len() {
            values[place] = scalar * values[place];
        }
    }

    /// Adds to each sum the product of `scalar` and the value at its place: `sums += scalar * values`. The slices are of one length.
    fn add_scaled(sums: &mut [Self], scalar: Self, values: &[Self])
        requires { length values.now ≡ length sums.old }
        ensures { map Self.repr sums.new
            ≡ zip2 (λ x y. bit_xor x (Self.product (Self.repr scalar) y)) (map Self.repr sums.old) (map Self.repr values.now) }
    {
        for place in 0..sums.len() {
            sums[place] = sums[place] + scalar * values[place];
        }
    }

    /// A vector of `len` zeros. It fails only where the allocator refuses.
    final fn zero_vec<A: Allocator>(alloc: A, len: usize) -> Result<Vec<Self, A>, AllocError>
        ensures { IfOk result (λ zeros. zeros.items ≡ replicate len ZERO) }
    {
        let mut zeros = Vec::with_capacity(alloc, len)?;
        for _ in 0..len {
            zeros.push(Self::ZERO)?;
        }
        Ok(zeros)
    }

    ghost zero_law: { Self.repr ZERO ≡ 0 };

    ghost one_law: { Self.repr ONE ≡ Self.unit };

    ghost two_law: { TWO ≡ ZERO };

    ghost neg_one_law: { NEG_ONE ≡ ONE };

    ghost eq_law: { (x y : Self) → IsTrue (Self.PartialEq.eq x y) ↔ (Self.repr x ≡ Self.repr y) };

    ghost default_law: { (r : Self) → Self.is_default r → Self.repr r ≡ 0 };

    ghost from_law: { (x : Gf2) (r : Self) → Self.from_gives x r → Self.repr r ≡ bit_number x * Self.unit };

    // What the operators give beside those of `Represented`, and what the sum and the product of an iterator's elements give, which
    // are of all of them.
    ghost operators_law: { (x y : Self) →
        Gives (Self.can_add_assign x y) (Self.add_assign_gives x y) Self.repr (bit_xor (Self.repr x) (Self.repr y))
        × Gives (Self.can_sub x y) (Self.sub_gives x y) Self.repr (bit_xor (Self.repr x) (Self.repr y))
        × Gives (Self.can_sub_assign x y) (Self.sub_assign_gives x y) Self.repr (bit_xor (Self.repr x) (Self.repr y))
        × Gives (Self.can_mul_assign x y) (Self.mul_assign_gives x y) Self.repr (Self.product (Self.repr x) (Self.repr y))
        × Gives (Self.can_neg x) (Self.neg_gives x) Self.repr (Self.repr x) };

    ghost totals_law: { (xs : List Self) →
        Gives (Self.can_sum xs) (Self.sum_gives xs) Self.repr (sum_of Self.repr xs)
        × Gives (Self.can_product xs) (Self.product_gives xs) Self.repr (product_of Self.unit Self.product Self.repr xs) };

    ghost complete_law: { (r : Self) → Self.Sum.is_complete r × Self.Product.is_complete r };

    // The parts of these three laws, as laws of their own: so a proof about a generic ring finds them.
    ghost can_add_assign_law: { (x y : Self) → Self.can_add_assign x y } = { λ x y. (operators_law x y).0.0 };

    ghost add_assign_law: { (x y r : Self) → Self.add_assign_gives x y r
        → Self.repr r ≡ bit_xor (Self.repr x) (Self.repr y) } = { λ x y. (operators_law x y).0.1 };

    ghost can_sub_law: { (x y : Self) → Self.can_sub x y } = { λ x y. (operators_law x y).1.0 };

    ghost sub_law: { (x y r : Self) → Self.sub_gives x y r
        → Self.repr r ≡ bit_xor (Self.repr x) (Self.repr y) } = { λ x y. (operators_law x y).1.1 };

    ghost can_sub_assign_law: { (x y : Self) → Self.can_sub_assign x y } = { λ x y. (operators_law x y).2.0 };

    ghost sub_assign_law: { (x y r : Self) → Self.sub_assign_gives x y r
        → Self.repr r ≡ bit_xor (Self.repr x) (Self.repr y) } = { λ x y. (operators_law x y).2.1 };

    ghost can_mul_assign_law: { (x y : Self) → Self.can_mul_assign x y } = { λ x y. (operators_law x y).3.0 };

    ghost mul_assign_law: { (x y r : Self) → Self.mul_assign_gives x y r
        → Self.repr r ≡ Self.product (Self.repr x) (Self.repr y) } = { λ x y. (operators_law x y).3.1 };

    ghost can_neg_law: { (x : Self) → Self.can_neg x } = { λ x. (operators_law x x).4.0 };

    ghost neg_law: { (x r : Self) → Self.neg_gives x r → Self.repr r ≡ Self.repr x } = { λ x. (operators_law x x).4.1 };

    ghost sum_complete_law: { (r : Self) → Self.Sum.is_complete r } = { λ r. (complete_law r).0 };

    ghost product_complete_law: { (r : Self) → Self.Product.is_complete r } = { λ r. (complete_law r).1 };

    ghost can_sum_law: { (xs : List Self) → Self.can_sum xs } = { λ xs. (totals_law xs).0.0 };

    ghost sum_law: { (xs : List Self) (r : Self) → Self.sum_gives xs r → Self.repr r ≡ sum_of Self.repr xs } = { λ xs. (totals_law xs).0.1 };

    ghost can_product_law: { (xs : List Self) → Self.can_product xs } = { λ xs. (totals_law xs).1.0 };

    ghost product_law: { (xs : List Self) (r : Self) → Self.product_gives xs r
        → Self.repr r ≡ product_of Self.unit Self.product Self.repr xs } = { λ xs. (totals_law xs).1.1 };
}

/// The dot product of arrays, which every ring has.
pub trait DotProduct<const N: usize>: PrimeCharacteristicRing {
    /// The sum of the products of the elements of both arrays, place by place.
    fn dot_product(left: &[Self; N], right: &[Self; N]) -> Self
        ensures { Self.repr result ≡ dot_of Self.product Self.repr left.now right.now };
}

impl<R: PrimeCharacteristicRing, const N: usize> DotProduct<N> for R {
    fn dot_product(left: &[R; N], right: &[R; N]) -> R {
        R::dot_product_of_slices(left, right)
    }
}
