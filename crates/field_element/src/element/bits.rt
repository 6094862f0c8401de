// Elements of GF(2) in a field: the operators with a bit on the right, the product with one on the left, and the field as an
// algebra over GF(2).
ghost use Rattle.std.specs.Prelude.{◌≡◌, ◌<◌, ◌^◌, ℕ, refl};
ghost use Rattle.field_base.specs.Bit.{bit_number as bit_of};
ghost use Rattle.field_base.specs.lemmas.Operators.{given};
ghost use Rattle.field_element.specs.lemmas.BitProduct.{bit_product};
ghost use Rattle.field_element.specs.Element.{repr_of};

mod operators;

use crate::element::{Element, HasPacking};
use field_base::traits::{Algebra, TowerLevel};
use field_base::{FieldKernel, Gf2, Stored};
use std::ops::Mul;

// The product of a word and a bit, which is the word or 0.
#[inline]
fn times_bit<R: Stored, K: FieldKernel<R>>(x: Element<R, K>, bit: Gf2) -> Element<R, K>
    ensures { repr_of result ≡ K.product (repr_of x) (bit_of bit) }
{
    if bit.to_repr() == 0 {
        Element::of_word(R::ZERO)
    } else {
        x
    }
}

impl<R: Stored, K: FieldKernel<R>> Mul<Element<R, K>> for Gf2 {
    type Output = Element<R, K>;

    ghost mul_gives = { λ x y r. repr_of r ≡ K.product (repr_of y) (bit_of x) };

    #[inline]
    fn mul(self, element: Element<R, K>) -> Element<R, K> {
        times_bit(element, self)
    }
}

impl<R: Stored, K: HasPacking<R>> Algebra<Gf2> for Element<R, K> {
    ghost image = { λ a. a };

    ghost image_unit_law = { refl };

    ghost image_sum_law = { λ a b a_fits b_fits. refl };

    ghost image_product_law = { λ a b a_fits b_fits. bit_product K.width K.product K.field_law.ring K.wide_law a a_fits b b_fits };

    ghost image_injective_law = { λ proper a b a_fits b_fits same. same };

    ghost image_from_law = { λ x r is. is };

    ghost operators_law = { λ x y. (given, given, given, given, given, given) };
}
