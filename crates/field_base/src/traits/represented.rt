// Elements that are stored as numbers, and sums and products of many of them.
ghost use Rattle.std.specs.Prelude.{◌≡◌, ◌^◌, ◌<◌, ℕ, bit_xor, List};
ghost use Rattle.std.specs.Iterator.{Drains, IsFinite};
ghost use Rattle.field_base.specs.Powers.{sum_of, product_of};
ghost use Rattle.field_base.specs.Ring.{IsRing};

use std::ops::{Add, Mul};

/// An element that stands for a number, its representation: a sum is the exclusive or of the representations, and a
/// product is the ring's product of them. It has no items of its own that run; every ring of this library has it.
pub trait Represented: Copy + Add<Self, Output = Self> + Mul<Self, Output = Self> {
    // The bits of an element, the representation of the one, and the product over representations.
    ghost width: { ℕ };

    ghost unit: { ℕ };

    ghost product: { ℕ → ℕ → ℕ };

    // The representation of an element.
    ghost repr: { Self → ℕ };

    ghost ring_law: { IsRing width unit product };

    ghost unit_fits: { unit < 2 ^ width };

    ghost range_law: { (x : Self) → repr x < 2 ^ width };

    ghost same_law: { (x y : Self) → repr x ≡ repr y → x ≡ y };

    ghost can_add_law: { (x y : Self) → Self.can_add x y };

    ghost add_law: { (x y r : Self) → Self.add_gives x y r → repr r ≡ bit_xor (repr x) (repr y) };

    ghost can_mul_law: { (x y : Self) → Self.can_mul x y };

    ghost mul_law: { (x y r : Self) → Self.mul_gives x y r → repr r ≡ product (repr x) (repr y) };
}

/// The sum of an iterator's elements; of none it is `zero`.
pub fn sum_of_items<E: Represented, I: Iterator<Item = E>>(iter: I, zero: E) -> E
    requires can { I.can_next iter }
    requires finite { IsFinite (I.remaining iter) }
    requires starts { E.repr zero ≡ 0 }
    ensures { (xs : List E) × Drains I.next_gives iter xs × (E.repr result ≡ sum_of E.repr xs) }
{
    let mut sum = zero;
    for item in iter {
        sum = sum + item;
    }
    sum
}

/// The product of an iterator's elements; of none it is `one`.
pub fn product_of_items<E: Represented, I: Iterator<Item = E>>(iter: I, one: E) -> E
    requires can { I.can_next iter }
    requires finite { IsFinite (I.remaining iter) }
    requires starts { E.repr one ≡ E.unit }
    ensures { (xs : List E) × Drains I.next_gives iter xs × (E.repr result ≡ product_of E.unit E.product E.repr xs) }
{
    let mut product = one;
    for item in iter {
        product = product * item;
    }
    product
}
