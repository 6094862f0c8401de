// The field of two elements. A sum is exclusive or, a product is and.
ghost use Rattle.std.specs.Prelude.{◌≡◌, ◌≢◌, ◌<◌, ◌*◌, ◌%◌, ℕ, ◌↔◌, IsTrue, bit_xor, refl};
ghost use Rattle.std.proofs.Common.{lit<, lit≤, rules};
ghost use Rattle.field_base.specs.lemmas.Operators.{given};
ghost use Rattle.field_base.specs.Powers.{sum_of, product_of};
ghost use Rattle.field_base.specs.Tower.{tower_mul};

mod draws;
mod texts;

use crate::traits::{
    Field, PrimeCharacteristicRing, Represented, Sealed, TowerLevel, product_of_items, sum_of_items,
};
use std::iter::{Product, Sum};
use std::ops::{Add, AddAssign, Div, DivAssign, Mul, MulAssign, Neg, Sub, SubAssign};

/// An element of GF(2), the field of two elements: 0 or 1.
#[derive(Clone, Copy, Debug, PartialEq, Eq, PartialOrd, Ord, Hash)]
pub struct Gf2 {
    repr: u8,
    ghost in_range: { repr < 2 },
}

impl Gf2 {
    ghost use Rattle.field_base.specs.Bit.{bit_number};

    /// The product, by its definition: what `*` gives.
    pub fn reference_mul(self, other: Gf2) -> Gf2
        ensures { bit_number result ≡ tower_mul 0 (bit_number self) (bit_number other) }
    {
        self * other
    }

    // Whether the element is 1; the default bodies of the ring trait use it.
    pub(crate) fn is_set(self) -> bool
        ensures { IsTrue result ↔ (bit_number self ≡ 1) }
    {
        self.repr == 1
    }
}

impl Add<Gf2> for Gf2 {
    type Output = Gf2;

    ghost add_gives = { λ x y r. r.repr ≡ bit_xor x.repr y.repr };

    fn add(self, other: Gf2) -> Gf2 {
        Gf2 {
            repr: self.repr ^ other.repr,
        }
    }
}

impl AddAssign<Gf2> for Gf2 {
    ghost add_assign_gives = { λ x y r. r.repr ≡ bit_xor x.repr y.repr };

    fn add_assign(&mut self, other: Gf2) {
        *self = *self + other;
    }
}

impl Sub<Gf2> for Gf2 {
    type Output = Gf2;

    ghost sub_gives = { λ x y r. r.repr ≡ bit_xor x.repr y.repr };

    fn sub(self, other: Gf2) -> Gf2 {
        self + other
    }
}

impl SubAssign<Gf2> for Gf2 {
    ghost sub_assign_gives = { λ x y r. r.repr ≡ bit_xor x.repr y.repr };

    fn sub_assign(&mut self, other: Gf2) {
        *self = *self + other;
    }
}

impl Neg for Gf2 {
    type Output = Gf2;

    ghost neg_gives = { λ x r. r.repr ≡ x.repr };

    fn neg(self) -> Gf2 {
        self
    }
}

impl Mul<Gf2> for Gf2 {
    type Output = Gf2;

    ghost mul_gives = { λ x y r. r.repr ≡ tower_mul 0 x.repr y.repr };

    fn mul(self, other: Gf2) -> Gf2 {
        Gf2 {
            repr: self.repr & other.repr,
        }
    }
}

impl MulAssign<Gf2> for Gf2 {
    ghost mul_assign_gives = { λ x y r. r.repr ≡ tower_mul 0 x.repr y.repr };

    fn mul_assign(&mut self, other: Gf2) {
        *self = *self * other;
    }
}

impl Div<Gf2> for Gf2 {
    type Output = Gf2;

    ghost can_div = { λ x y. y.repr ≢ 0 };

    ghost div_gives = { λ x y r. tower_mul 0 r.repr y.repr ≡ x.repr };

    // The only divisor is 1.
    fn div(self, _other: Gf2) -> Gf2 {
        self
    }
}

impl DivAssign<Gf2> for Gf2 {
    ghost can_div_assign = { λ x y. y.repr ≢ 0 };

    ghost div_assign_gives = { λ x y r. tower_mul 0 r.repr y.repr ≡ x.repr };

    fn div_assign(&mut self, other: Gf2) {
        *self = *self / other;
    }
}

impl Sum<Gf2> for Gf2 {
    ghost sum_gives = { λ xs r. r.repr ≡ sum_of (λ x. x.repr) xs };

    fn sum<I: Iterator<Item = Gf2>>(iter: I) -> Gf2 {
        sum_of_items(iter, Gf2 { repr: 0 })
    }
}

impl Product<Gf2> for Gf2 {
    ghost product_gives = { λ xs r. r.repr ≡ product_of 1 (tower_mul 0) (λ x. x.repr) xs };

    fn product<I: Iterator<Item = Gf2>>(iter: I) -> Gf2 {
        product_of_items(iter, Gf2 { repr: 1 })
    }
}

impl Default for Gf2 {
    ghost is_default = { λ x. x.repr ≡ 0 };

    fn default() -> Gf2 {
        Gf2 { repr: 0 }
    }
}

impl Represented for Gf2 {
    ghost use Rattle.field_base.specs.Bit.{bit_number};
    ghost use Rattle.field_base.specs.lemmas.Bit.{same_repr};
    ghost use Rattle.field_base.specs.lemmas.BitRing.{bits_ring};

    ghost width = { 1 };

    ghost unit = { 1 };

    ghost product = { tower_mul 0 };

    ghost repr = { bit_number };

    ghost ring_law = { bits_ring };

    ghost unit_fits = { lit< tt };

    ghost range_law = { λ x. x.in_range };

    ghost same_law = { same_repr };

    ghost can_add_law = { λ x y. tt };

    ghost add_law = { λ x y r is. is };

    ghost can_mul_law = { λ x y. tt };

    ghost mul_law = { λ x y r is. is };
}

impl PrimeCharacteristicRing for Gf2 {
    ghost use Rattle.field_base.specs.lemmas.Bit.{same_bit};

    type PrimeSubfield = Gf2;

    const ZERO: Gf2 = Gf2 { repr: 0 };

    ghost ZERO = { record { repr = 0; in_range = lit< tt } };

    const ONE: Gf2 = Gf2 { repr: 1 };

    ghost ONE = { record { repr = 1; in_range = lit< tt } };

    const TWO: Gf2 = Gf2 { repr: 0 };

    ghost TWO = { record { repr = 0; in_range = lit< tt } };

    const NEG_ONE: Gf2 = Gf2 { repr: 1 };

    ghost NEG_ONE = { record { repr = 1; in_range = lit< tt } };

    // Each bit is its own square, however many the squarings are.
    fn exp_power_of_2(&self, _count: usize) -> Gf2 {
        *self
    }

    ghost zero_law = { refl };

    ghost one_law = { refl };

    ghost two_law = { refl };

    ghost neg_one_law = { refl };

    ghost eq_law = { Prim.search rules };

    ghost default_law = { λ r is. is };

    ghost from_law = { same_bit };

    ghost operators_law = { λ x y. (given, given, given, given, given) };

    ghost totals_law = { λ xs. (given, given) };

    ghost complete_law = { λ r. (tt, tt) };
}

impl Field for Gf2 {
    ghost use Rattle.field_base.specs.lemmas.BitRing.{bit_field, bit_generator, one_is_nonzero};

    type Packing = Gf2;

    const GENERATOR: Gf2 = Gf2 { repr: 1 };

    ghost GENERATOR = { record { repr = 1; in_range = lit< tt } };

    fn bits() -> usize {
        1
    }

    fn try_inverse(&self) -> Option<Gf2> {
        if self.repr == 0 { None } else { Some(*self) }
    }

    fn interpolation_node(i: usize) -> Gf2 {
        Gf2 { repr: i as u8 }
    }

    ghost generator_nonzero_law = { one_is_nonzero };

    ghost generator_law = { λ small. bit_generator };

    ghost wide_law = { lit< tt };

    ghost unit_law = { refl };

    ghost can_div_law = { λ x y divides. divides };

    ghost div_law = { λ x y r is. is };

    ghost can_div_assign_law = { λ x y divides. divides };

    ghost div_assign_law = { λ x y r is. is };

    ghost field_law = { bit_field };

    ghost every_law = { λ n fits. (record { repr = n; in_range = fits }, refl) };
}

impl Sealed for Gf2 {}

impl TowerLevel for Gf2 {
    ghost use Rattle.field_base.specs.lemmas.BitRing.{bit_cantor, bit_cantor_image, bit_no_root, level_basis};

    type Repr = u8;

    const LOG_BITS: usize = 0;

    ghost LOG_BITS = { 0 };

    ghost basis = { λ a. a };

    ghost cantor = { λ i. 1 };

    fn from_repr(bits: u8) -> Gf2 {
        Gf2 { repr: bits % 2 }
    }

    fn to_repr(self) -> u8 {
        self.repr
    }

    fn mul_alpha(self) -> Gf2 {
        self
    }

    fn cantor_basis(_i: usize) -> Gf2 {
        Gf2 { repr: 1 }
    }

    ghost bits_law = { refl };

    ghost room_law = { lit≤ tt };

    ghost basis_law = { level_basis 0 };

    ghost cantor_law = { bit_cantor };

    ghost cantor_image_law = { bit_cantor_image };

    ghost generator_image_law = { refl };

    ghost no_root_law = { bit_no_root };
}
