// The traits of rings and fields, for the elements of every field at once.
ghost use Rattle.std.specs.Prelude.{◌≡◌, ◌≢◌, ◌<◌, ◌%◌, ◌^◌, ℕ, refl};
ghost use Rattle.std.proofs.Common.{sym, subst, ◌∙◌};
ghost use Rattle.field_base.specs.lemmas.Operators.{given};
ghost use Rattle.field_base.specs.Orders.{HasFullOrder};
ghost use Rattle.field_base.specs.Powers.{repeated_square};
ghost use Rattle.field_element.specs.lemmas.Range.{number_of_stored, one_in_range, stored_in_range, zero_in_range};

use crate::element::{
    Element, HasPacking, add_scaled_elements, dot_of_elements, invert_elements, multiply_elements,
    multiply_elements_by, value,
};
use field_base::traits::{Field, PrimeCharacteristicRing, Represented, Sealed, TowerLevel};
use field_base::{FieldKernel, Gf2, LevelKernel, Stored, Unsigned};
use packed_lanes::Laned;
use std::marker::PhantomData;

// The word of an element, squared `count` times.
fn squarings<R: Stored, K: FieldKernel<R>>(word: R, count: usize) -> R
    requires { R.number word < 2 ^ K.width }
    ensures fits { R.number result < 2 ^ K.width }
    ensures squares { R.number result ≡ repeated_square 1 K.product count (R.number word) }
{
    let mut squared = word;
    for _ in 0..count {
        squared = K::square(squared);
    }
    squared
}

impl<R: Stored, K: FieldKernel<R>> Represented for Element<R, K> {
    ghost use Rattle.field_element.specs.Element.{repr_of};
    ghost use Rattle.field_element.specs.lemmas.Element.{same_word};

    ghost width = { K.width };

    ghost unit = { 1 };

    ghost product = { K.product };

    ghost repr = { repr_of };

    ghost ring_law = { K.field_law.ring };

    ghost unit_fits = { one_in_range K.width 1 refl K.wide_law };

    ghost range_law = { λ x. x.in_range };

    ghost same_law = { λ x y same. same_word x y (R.same_law x.repr y.repr same) };

    ghost can_add_law = { λ x y. tt };

    ghost add_law = { λ x y r is. is };

    ghost can_mul_law = { λ x y. tt };

    ghost mul_law = { λ x y r is. is };
}

impl<R: Stored, K: HasPacking<R>> PrimeCharacteristicRing for Element<R, K> {
    ghost use Rattle.field_base.specs.Bit.{bit_number as bit_of};
    ghost use Rattle.field_base.proofs.TowerLaws.{is_times_one};

    type PrimeSubfield = Gf2;

    const ZERO: Element<R, K> = Element {
        repr: R::ZERO,
        field: PhantomData,
    };

    ghost ZERO = { record { repr = R.ZERO; field = record {}; in_range = zero_in_range K.width _ R.zero_number K.wide_law } };

    const ONE: Element<R, K> = Element {
        repr: R::ONE,
        field: PhantomData,
    };

    ghost ONE = { record { repr = R.ONE; field = record {}; in_range = one_in_range K.width _ R.one_number K.wide_law } };

    const TWO: Element<R, K> = Element {
        repr: R::ZERO,
        field: PhantomData,
    };

    ghost TWO = { record { repr = R.ZERO; field = record {}; in_range = zero_in_range K.width _ R.zero_number K.wide_law } };

    const NEG_ONE: Element<R, K> = Element {
        repr: R::ONE,
        field: PhantomData,
    };

    ghost NEG_ONE = { record { repr = R.ONE; field = record {}; in_range = one_in_range K.width _ R.one_number K.wide_law } };

    #[inline]
    fn square(&self) -> Element<R, K> {
        Element {
            repr: K::square(self.repr),
            field: PhantomData,
        }
    }

    // The kernel reduces the count by the bits first.
    fn exp_power_of_2(&self, count: usize) -> Element<R, K> {
        let (word, rest) = K::reduce_squarings(self.repr, count);
        Element {
            repr: squarings::<R, K>(word, rest),
            field: PhantomData,
        }
    }

    #[inline]
    fn dot_product_of_slices(left: &[Element<R, K>], right: &[Element<R, K>]) -> Element<R, K> {
        dot_of_elements(left, right)
    }

    fn multiply_by(values: &mut [Element<R, K>], scalar: Element<R, K>) {
        multiply_elements_by(values, scalar);
    }

    fn add_scaled(sums: &mut [Element<R, K>], scalar: Element<R, K>, values: &[Element<R, K>]) {
        add_scaled_elements(sums, scalar, values);
    }

    ghost zero_law = { R.zero_number };

    ghost one_law = { R.one_number };

    ghost two_law = { refl };

    ghost neg_one_law = { refl };

    ghost eq_law = { λ x y. R.eq_law x.repr y.repr };

    ghost default_law = { λ r is. is };

    ghost from_law = { λ x r is. is_times_one (R.number r.repr) (bit_of x) is };

    ghost operators_law = { λ x y. (given, given, given, given, given) };

    ghost totals_law = { λ xs. (given, given) };

    ghost complete_law = { λ r. (tt, tt) };
}

impl<R: Stored, K: HasPacking<R>> Laned for Element<R, K> {
    const ZERO_LANE: Element<R, K> = Element {
        repr: R::ZERO,
        field: PhantomData,
    };

    ghost ZERO_LANE = { record { repr = R.ZERO; field = record {}; in_range = zero_in_range K.width _ R.zero_number K.wide_law } };

    const ONE_LANE: Element<R, K> = Element {
        repr: R::ONE,
        field: PhantomData,
    };

    ghost ONE_LANE = { record { repr = R.ONE; field = record {}; in_range = one_in_range K.width _ R.one_number K.wide_law } };

    #[inline]
    fn multiply_lanes(left: &mut [Element<R, K>], right: &[Element<R, K>]) {
        multiply_elements(left, right);
    }

    ghost zero_lane_law = { R.zero_number };

    ghost one_lane_law = { R.one_number };
}

impl<R: Stored, K: HasPacking<R>> Field for Element<R, K> {
    type Packing = K::Packing;

    const GENERATOR: Element<R, K> = Element {
        repr: K::GENERATOR,
        field: PhantomData,
    };

    ghost GENERATOR = { record {
      repr = R.of_number K.generator;
      field = record {};
      in_range = stored_in_range K.width R.bits R.number R.of_number R.number_of K.generator K.generator_fits;
    } };

    const LEAST_INVERTED: usize = K::LEAST_IN_BATCH;

    #[inline]
    fn bits() -> usize {
        K::bits()
    }

    fn invert_each(values: &[Element<R, K>], inverses: &mut [Element<R, K>]) {
        invert_elements(values, inverses);
    }

    // `invert` is called before the test for 0, so that the code has no branch where the kernel has none.
    #[inline]
    fn try_inverse(&self) -> Option<Element<R, K>> {
        let inverse = Element {
            repr: K::invert(self.repr),
            field: PhantomData,
        };
        if self.repr == R::ZERO {
            None
        } else {
            Some(inverse)
        }
    }

    #[inline]
    fn try_sqrt(&self) -> Option<Element<R, K>> {
        Some(Element {
            repr: K::sqrt(self.repr),
            field: PhantomData,
        })
    }

    #[inline]
    fn is_zero(&self) -> bool {
        self.repr == R::ZERO
    }

    #[inline]
    fn is_one(&self) -> bool {
        self.repr == R::ONE
    }

    fn interpolation_node(i: usize) -> Element<R, K> {
        Element {
            repr: R::of_index(i),
            field: PhantomData,
        }
    }

    ghost generator_nonzero_law = { λ none. K.generator_nonzero
        (sym (number_of_stored K.width R.bits R.number R.of_number R.number_of K.FieldKernel.room_law K.generator K.generator_fits)
        ∙ none) };

    ghost generator_law = { λ small. subst (HasFullOrder K.width K.product)
        (sym (number_of_stored K.width R.bits R.number R.of_number R.number_of K.FieldKernel.room_law K.generator K.generator_fits))
        (K.generator_law small) };

    ghost wide_law = { K.wide_law };

    ghost unit_law = { refl };

    ghost can_div_law = { λ x y divides. divides };

    ghost div_law = { λ x y r is. is };

    ghost can_div_assign_law = { λ x y divides. divides };

    ghost div_assign_law = { λ x y r is. is };

    ghost field_law = { K.field_law };

    ghost every_law = { λ n fits. (
      record {
        repr = R.of_number n;
        field = record {};
        in_range = stored_in_range K.width R.bits R.number R.of_number R.number_of n fits;
      },
      number_of_stored K.width R.bits R.number R.of_number R.number_of K.FieldKernel.room_law n fits,
    ) };
}

impl<R: Unsigned, K: LevelKernel<R> + HasPacking<R>> Sealed for Element<R, K> {}

impl<R: Unsigned, K: LevelKernel<R> + HasPacking<R>> TowerLevel for Element<R, K> {
    ghost use Rattle.field_base.proofs.TowerBasisLemmas.{basis-cantor, basis-no_root};

    type Repr = R;

    const LOG_BITS: usize = K::LOG_BITS;

    ghost LOG_BITS = { K.LOG_BITS };

    ghost basis = { K.basis };

    ghost cantor = { K.cantor };

    #[inline]
    fn from_repr(bits: R) -> Element<R, K> {
        Element {
            repr: K::truncate(bits),
            field: PhantomData,
        }
    }

    #[inline]
    fn to_repr(self) -> R {
        self.repr
    }

    #[inline]
    fn mul_alpha(self) -> Element<R, K> {
        Element {
            repr: K::multiply_by_alpha(self.repr),
            field: PhantomData,
        }
    }

    fn cantor_basis(i: usize) -> Element<R, K> {
        Element {
            repr: K::cantor_vector(i),
            field: PhantomData,
        }
    }

    ghost bits_law = { K.bits_law };

    ghost room_law = { K.FieldKernel.room_law };

    ghost basis_law = { K.basis_law };

    ghost cantor_law = { K.cantor_law };

    ghost cantor_image_law = { basis-cantor K.LOG_BITS K.width K.product K.basis
        K.field_law.ring K.basis_law K.cantor K.cantor_law K.bits_law };

    ghost generator_image_law = { number_of_stored K.width R.bits R.number R.of_number R.number_of K.FieldKernel.room_law K.generator
        K.generator_fits ∙ K.generator_image_law };

    ghost no_root_law = { basis-no_root K.LOG_BITS K.width K.product K.basis K.field_law.ring K.basis_law };
}
