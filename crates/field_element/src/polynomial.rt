// What the fields of polynomials have of their own.
ghost use Rattle.std.specs.Prelude.{◌≡◌, ◌≢◌, ◌≤◌, length, map, IfOk};
ghost use Rattle.field_base.specs.Basis.{basis_image};
ghost use Rattle.field_base.specs.Powers.{value_of};
ghost use Rattle.field_base.specs.Remainder.{ghash_modulus, mul_mod};

mod impls;

use crate::element::Element;
use crate::names::Ghash128;
use field_base::traits::TowerLevel;
use field_base::{FieldKernel, Unsigned};
use std::alloc::{AllocError, Allocator};
use word_carryless::{multiply_by_power_128, reduce_128};
use word_polynomial::{Modulus, Polynomials};
use word_tower::{Level, Tower};

impl<R: Unsigned, L: Level<R>, M: Modulus<R, L>> Element<R, Polynomials<M, L>> {
    ghost use Rattle.field_element.specs.Element.{repr_of};

    /// The inverse, and 0 for 0. That of bytes is looked up; the others are chains of products and squares, which look up nothing at
    /// a place that the operand says.
    pub fn invert_or_zero(self) -> Element<R, Polynomials<M, L>>
        ensures zero { repr_of self ≡ 0 → repr_of result ≡ 0 }
        ensures inverse { repr_of self ≢ 0 → mul_mod M.width M.modulus (repr_of self) (repr_of result) ≡ 1 }
    {
        Element::of_word(<Polynomials<M, L> as FieldKernel<R>>::invert(self.word()))
    }

    /// The images of elements of the tower's level of as many bits, place by place, in a vector from `alloc`. It fails only
    /// where the allocator refuses.
    pub fn from_tower_vec<A: Allocator>(
        alloc: A,
        elements: &[Element<R, Tower<L>>],
    ) -> Result<Vec<Element<R, Polynomials<M, L>>, A>, AllocError>
        ensures { IfOk result (λ images. map repr_of images.items
            ≡ map (λ x. basis_image M.width M.modulus M.images (repr_of x)) elements.now) }
    {
        let mut images = Vec::with_capacity(alloc, elements.len())?;
        for element in elements.iter() {
            images.push(Element::of_word(M::to_polynomial(element.word())))?;
        }
        Ok(images)
    }
}

impl Ghash128 {
    ghost use Rattle.field_element.specs.Element.{repr_of};

    /// The value at x of the polynomial with these coefficients, the lowest first: the sum of value k times x^k over at
    /// most 128 values; of none it is 0. The sum of the shifted values is reduced once.
    pub fn dot_powers_of_x(values: &[Ghash128]) -> Ghash128
        requires { length values.now ≤ 128 }
        ensures { repr_of result ≡ value_of 1 (mul_mod 128 ghash_modulus) repr_of values.now 2 }
    {
        let mut low = 0;
        let mut high = 0;
        for place in 0..values.len() {
            let (term_low, term_high) = multiply_by_power_128(
                values[place].to_repr(),
                place as u32,
            );
            low ^= term_low;
            high ^= term_high;
        }
        Ghash128::from_repr(reduce_128(low, high))
    }
}
