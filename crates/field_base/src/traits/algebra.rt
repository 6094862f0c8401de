// Rings that another ring embeds in.
ghost use Rattle.std.specs.Prelude.{◌≡◌, ◌≢◌, ◌<◌, ◌^◌, ℕ, bit_xor, refl};
ghost use Rattle.std.proofs.Common.{ap};
ghost use Rattle.field_base.specs.Operators.{Gives};

use crate::traits::ring::PrimeCharacteristicRing;
use std::ops::{Add, AddAssign, Mul, MulAssign, Sub, SubAssign};

/// An algebra over the ring `F`: a ring with an embedding of `F`, by which its operators take an element of `F` on the
/// right. It has no items of its own. Each ring is an algebra over itself.
pub trait Algebra<F: PrimeCharacteristicRing>: PrimeCharacteristicRing
    + From<F>
    + Add<F, Output = Self>
    + AddAssign<F>
    + Sub<F, Output = Self>
    + SubAssign<F>
    + Mul<F, Output = Self>
    + MulAssign<F> {
    // The embedding, over representations. It carries 1, sums and products.
    ghost image: { ℕ → ℕ };

    ghost image_unit_law: { image F.unit ≡ Self.unit };

    ghost image_sum_law: { (a b : ℕ) → a < 2 ^ F.width → b < 2 ^ F.width → image (bit_xor a b) ≡ bit_xor (image a) (image b) };

    ghost image_product_law: { (a b : ℕ) → a < 2 ^ F.width → b < 2 ^ F.width → image (F.product a b) ≡ Self.product (image a) (image b) };

    // It is one to one, except into the zero ring, which a packing of no lanes is.
    ghost image_injective_law: { Self.unit ≢ 0 → (a b : ℕ) → a < 2 ^ F.width → b < 2 ^ F.width → image a ≡ image b → a ≡ b };

    // What the conversion and the operators give, the second bound of each name being the one over `F`.
    ghost image_from_law: { (x : F) (r : Self) → Self.From-2.from_gives x r → Self.repr r ≡ image (F.repr x) };

    ghost operators_law: { (x : Self) (y : F) → let sum = bit_xor (Self.repr x) (image (F.repr y)) in
        let product = Self.product (Self.repr x) (image (F.repr y)) in
        Gives (Self.Add-2.can_add x y) (Self.Add-2.add_gives x y) Self.repr sum
        × Gives (Self.AddAssign-2.can_add_assign x y) (Self.AddAssign-2.add_assign_gives x y) Self.repr sum
        × Gives (Self.Sub-2.can_sub x y) (Self.Sub-2.sub_gives x y) Self.repr sum
        × Gives (Self.SubAssign-2.can_sub_assign x y) (Self.SubAssign-2.sub_assign_gives x y) Self.repr sum
        × Gives (Self.Mul-2.can_mul x y) (Self.Mul-2.mul_gives x y) Self.repr product
        × Gives (Self.MulAssign-2.can_mul_assign x y) (Self.MulAssign-2.mul_assign_gives x y) Self.repr product };

    // The parts of `operators_law`, as laws of their own: so a proof about a generic ring finds them.
    ghost can_add_image_law: { (x : Self) (y : F) → Self.Add-2.can_add x y } = { λ x y. (operators_law x y).0.0 };

    ghost add_image_law: { (x : Self) (y : F) (r : Self) → Self.Add-2.add_gives x y r
        → Self.repr r ≡ bit_xor (Self.repr x) (image (F.repr y)) } = { λ x y. (operators_law x y).0.1 };

    ghost can_add_assign_image_law: { (x : Self) (y : F) → Self.AddAssign-2.can_add_assign x y } = { λ x y. (operators_law x y).1.0 };

    ghost add_assign_image_law: { (x : Self) (y : F) (r : Self) → Self.AddAssign-2.add_assign_gives x y r
        → Self.repr r ≡ bit_xor (Self.repr x) (image (F.repr y)) } = { λ x y. (operators_law x y).1.1 };

    ghost can_sub_image_law: { (x : Self) (y : F) → Self.Sub-2.can_sub x y } = { λ x y. (operators_law x y).2.0 };

    ghost sub_image_law: { (x : Self) (y : F) (r : Self) → Self.Sub-2.sub_gives x y r
        → Self.repr r ≡ bit_xor (Self.repr x) (image (F.repr y)) } = { λ x y. (operators_law x y).2.1 };

    ghost can_sub_assign_image_law: { (x : Self) (y : F) → Self.SubAssign-2.can_sub_assign x y } = { λ x y. (operators_law x y).3.0 };

    ghost sub_assign_image_law: { (x : Self) (y : F) (r : Self) → Self.SubAssign-2.sub_assign_gives x y r
        → Self.repr r ≡ bit_xor (Self.repr x) (image (F.repr y)) } = { λ x y. (operators_law x y).3.1 };

    ghost can_mul_image_law: { (x : Self) (y : F) → Self.Mul-2.can_mul x y } = { λ x y. (operators_law x y).4.0 };

    ghost mul_image_law: { (x : Self) (y : F) (r : Self) → Self.Mul-2.mul_gives x y r
        → Self.repr r ≡ Self.product (Self.repr x) (image (F.repr y)) } = { λ x y. (operators_law x y).4.1 };

    ghost can_mul_assign_image_law: { (x : Self) (y : F) → Self.MulAssign-2.can_mul_assign x y } = { λ x y. (operators_law x y).5.0 };

    ghost mul_assign_image_law: { (x : Self) (y : F) (r : Self) → Self.MulAssign-2.mul_assign_gives x y r
        → Self.repr r ≡ Self.product (Self.repr x) (image (F.repr y)) } = { λ x y. (operators_law x y).5.1 };
}

impl<R: PrimeCharacteristicRing> Algebra<R> for R {
    ghost image = { λ a. a };

    ghost image_unit_law = { refl };

    ghost image_sum_law = { λ a b a_fits b_fits. refl };

    ghost image_product_law = { λ a b a_fits b_fits. refl };

    ghost image_injective_law = { λ proper a b a_fits b_fits same. same };

    ghost image_from_law = { λ x r is. ap R.repr is };

    ghost operators_law = { λ x y. (
      (R.can_add_law x y, R.add_law x y),
      (R.can_add_assign_law x y, R.add_assign_law x y),
      (R.can_sub_law x y, R.sub_law x y),
      (R.can_sub_assign_law x y, R.sub_assign_law x y),
      (R.can_mul_law x y, R.mul_law x y),
      (R.can_mul_assign_law x y, R.mul_assign_law x y),
    ) };
}
