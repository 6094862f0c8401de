// Written by scripts/make_impls.py; do not edit.
// Levels of the tower as algebras over the levels below them: an element of the lower level is the same number in the upper.
ghost use Rattle.std.specs.Prelude.{◌≡◌, ◌<◌, ◌^◌, ℕ, refl};
ghost use Rattle.field_base.specs.lemmas.Operators.{given};
ghost use Rattle.field_element.specs.lemmas.LevelProduct.{product_inside};
ghost use Rattle.field_element.specs.Element.{repr_of};

use crate::element::Element;
use crate::names::{BinaryField16, BinaryField32, BinaryField64, BinaryField128};
use crate::subfields::Below;
use field_base::Unsigned;
use field_base::traits::Algebra;
use many_words::Many;
use word_tower::{Bits16, Bits32, Bits64, Bits128, Tower};

impl<S: Unsigned, J: Below<u16, Tower<Bits16>, S>> Algebra<Element<S, Tower<J>>> for BinaryField16
where
    Tower<J>: Many<S, S>,
{
    ghost image = { λ a. a };

    ghost image_unit_law = { refl };

    ghost image_sum_law = { λ a b a_fits b_fits. refl };

    ghost image_product_law = { λ a b a_fits b_fits. product_inside J.LEVEL 4 J.lies_law a b a_fits b_fits };

    ghost image_injective_law = { λ proper a b a_fits b_fits same. same };

    ghost image_from_law = { λ x r is. is };

    ghost operators_law = { λ x y. (given, given, given, given, given, given) };
}

impl<S: Unsigned, J: Below<u32, Tower<Bits32>, S>> Algebra<Element<S, Tower<J>>> for BinaryField32
where
    Tower<J>: Many<S, S>,
{
    ghost image = { λ a. a };

    ghost image_unit_law = { refl };

    ghost image_sum_law = { λ a b a_fits b_fits. refl };

    ghost image_product_law = { λ a b a_fits b_fits. product_inside J.LEVEL 5 J.lies_law a b a_fits b_fits };

    ghost image_injective_law = { λ proper a b a_fits b_fits same. same };

    ghost image_from_law = { λ x r is. is };

    ghost operators_law = { λ x y. (given, given, given, given, given, given) };
}

impl<S: Unsigned, J: Below<u64, Tower<Bits64>, S>> Algebra<Element<S, Tower<J>>> for BinaryField64
where
    Tower<J>: Many<S, S>,
{
    ghost image = { λ a. a };

    ghost image_unit_law = { refl };

    ghost image_sum_law = { λ a b a_fits b_fits. refl };

    ghost image_product_law = { λ a b a_fits b_fits. product_inside J.LEVEL 6 J.lies_law a b a_fits b_fits };

    ghost image_injective_law = { λ proper a b a_fits b_fits same. same };

    ghost image_from_law = { λ x r is. is };

    ghost operators_law = { λ x y. (given, given, given, given, given, given) };
}

impl<S: Unsigned, J: Below<u128, Tower<Bits128>, S>> Algebra<Element<S, Tower<J>>>
    for BinaryField128
where
    Tower<J>: Many<S, S>,
{
    ghost image = { λ a. a };

    ghost image_unit_law = { refl };

    ghost image_sum_law = { λ a b a_fits b_fits. refl };

    ghost image_product_law = { λ a b a_fits b_fits. product_inside J.LEVEL 7 J.lies_law a b a_fits b_fits };

    ghost image_injective_law = { λ proper a b a_fits b_fits same. same };

    ghost image_from_law = { λ x r is. is };

    ghost operators_law = { λ x y. (given, given, given, given, given, given) };
}
