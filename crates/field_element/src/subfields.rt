// Conversions between fields. A level of the tower embeds in a wider level with zeros above, and in a field of polynomials by the
// change of basis; the level that is the field of polynomials in the tower's basis has the change back too.
ghost use Rattle.std.specs.Prelude.{◌≡◌, ◌<◌, ◌^◌, ℕ, bit_xor};
ghost use Rattle.field_base.specs.Basis.{basis_image};
ghost use Rattle.field_base.specs.lemmas.Operators.{given};
ghost use Rattle.field_base.specs.Remainder.{mul_mod};
ghost use Rattle.field_element.specs.Element.{repr_of};

mod impls;

use crate::element::{Element, HasPacking};
use field_base::traits::Algebra;
use field_base::{Contains, LevelKernel, Unsigned};
use many_words::Many;
use word_polynomial::{EmbedsIn, Modulus, Polynomials};
use word_tower::{Level, LiesIn, Tower};

impl<
    R: Unsigned,
    B: Level<R>,
    M: Modulus<R, B>,
    S: Unsigned,
    L: EmbedsIn<R, Polynomials<M, B>, S>,
> From<Element<S, Tower<L>>> for Element<R, Polynomials<M, B>> {
    ghost from_gives = { λ x r. repr_of r ≡ basis_image M.width M.modulus M.images (repr_of x) };

    fn from(element: Element<S, Tower<L>>) -> Element<R, Polynomials<M, B>> {
        Element::of_word(<Polynomials<M, B> as Contains<R, S, Tower<L>>>::embed(element.word()))
    }
}

/// A level of the tower below the level `K`. The marker is local to this crate, so that the compiler knows that these
/// conversions never overlap with `From<T> for T`.
pub trait Below<R: Unsigned, K: LevelKernel<R>, S: Unsigned>: LiesIn<R, K, S> {}

impl<
    R: Unsigned,
    B: Level<R>,
    M: Modulus<R, B>,
    S: Unsigned,
    L: EmbedsIn<R, Polynomials<M, B>, S>,
> Algebra<Element<S, Tower<L>>> for Element<R, Polynomials<M, B>>
where
    Polynomials<M, B>: HasPacking<R>,
    Tower<L>: Many<S, S>,
{
    ghost use Rattle.field_base.proofs.BasisFields.{image_of_lower_injective, image_of_lower_product};

    ghost image = { basis_image M.width M.modulus M.images };

    ghost image_unit_law = { M.isomorphism_law.homomorphism.one_image };

    ghost image_sum_law = { λ a b a_fits b_fits. M.isomorphism_law.homomorphism.sum_image a b };

    ghost image_product_law = { image_of_lower_product M.LEVEL M.width M.modulus M.images M.isomorphism_law L.LEVEL L.lies_law };

    ghost image_injective_law = { λ proper.
        image_of_lower_injective M.LEVEL M.width M.modulus M.images M.isomorphism_law L.LEVEL L.lies_law };

    ghost image_from_law = { λ x r is. is };

    ghost operators_law = { λ x y. (given, given, given, given, given, given) };
}
