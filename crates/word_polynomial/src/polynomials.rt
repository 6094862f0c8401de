// The kernel of every field of polynomials.
ghost use Rattle.std.specs.Prelude.{◌≡◌, ◌<◌, ◌≤◌, ◌%◌, ◌^◌, ℕ, refl};
ghost use Rattle.std.proofs.Common.{sym, subst};
ghost use Rattle.std.proofs.lemmas.Nat.{pow_pos};
ghost use native.Mathlib.Nat.{le_refl};
ghost use Rattle.field_base.specs.Basis.{basis_image};
ghost use Rattle.field_base.specs.Remainder.{mul_mod};
ghost use Rattle.field_base.specs.TowerBasis.{tower_generator};
ghost use Rattle.word_tables.specs.Cantor.{cantor_vector};
ghost use Rattle.word_tables.proofs.GeneratorImages.{image_generator_nonzero, image_generator_order};
ghost use Rattle.word_tables.proofs.LevelLaws.{level_cantor};

use crate::modulus::Modulus;
use field_base::{FieldKernel, LevelKernel, Unsigned};
use std::marker::PhantomData;
use word_tables::cantor_vector;
use word_tower::{Level, Tower};

/// The field of polynomials modulo `M`, that is, the level `L` of the tower in another basis.
pub struct Polynomials<M, L>(PhantomData<M>, PhantomData<L>);

// From this many squarings on, the way through the tower is faster, at 64 and at 128 bits.
const MANY_SQUARINGS: usize = 8;

impl<R: Unsigned, L: Level<R>, M: Modulus<R, L>> FieldKernel<R> for Polynomials<M, L> {
    ghost width = { M.width };

    ghost product = { mul_mod M.width M.modulus };

    ghost generator = { basis_image M.width M.modulus M.images (tower_generator M.LEVEL) };

    const NAME: &'static str = M::NAME;

    const GENERATOR: R = M::GENERATOR;

    ghost GENERATOR = { M.GENERATOR };

    ghost reduced = { M.reduced };

    ghost field_law = { M.field_law };

    ghost wide_law = { subst (λ (w : ℕ). 0 < w) (sym M.width_law) (pow_pos M.LEVEL) };

    ghost generator_fits = { M.isomorphism_law.homomorphism.below (tower_generator M.LEVEL) };

    #[inline]
    fn bits() -> usize {
        1 << L::LEVEL
    }

    // A word has no bits above the field.
    #[inline]
    fn truncate(x: R) -> R {
        R::of_u128(x.to_u128())
    }

    #[inline]
    fn multiply(x: R, y: R) -> R {
        M::multiply(x, y)
    }

    #[inline]
    fn square(x: R) -> R {
        M::square(x)
    }

    #[inline]
    fn invert(x: R) -> R {
        M::invert(x)
    }

    #[inline]
    fn sqrt(x: R) -> R {
        M::sqrt(x)
    }

    // Many squarings go through the tower, which has tables for them; the two changes of basis cost as much as a few squarings.
    #[inline]
    fn reduce_squarings(x: R, count: usize) -> (R, usize) {
        let rest = count % Self::bits();
        if rest < MANY_SQUARINGS {
            (x, rest)
        } else {
            let (element, fewer) = Tower::<L>::reduce_squarings(M::to_tower(x), rest);
            (M::to_polynomial(element), fewer)
        }
    }

    #[inline]
    fn no_products() -> (R, R) {
        (R::ZERO, R::ZERO)
    }

    #[inline]
    fn add_product(low: R, high: R, x: R, y: R) -> (R, R) {
        M::add_product(low, high, x, y)
    }

    #[inline]
    fn add_two_products(low: R, high: R, a: R, b: R, p: R, q: R) -> (R, R) {
        M::add_two_products(low, high, a, b, p, q)
    }

    #[inline]
    fn reduce_sum(low: R, high: R) -> R {
        M::reduce_sum(low, high)
    }

    ghost room_law = { subst (λ (w : ℕ). M.width ≤ w) M.bits_law (le_refl M.width) };

    ghost reduced_fits = { M.reduced_fits };

    ghost generator_is = { M.generator_is };

    ghost generator_nonzero = { image_generator_nonzero M.LEVEL M.width M.modulus M.images M.isomorphism_law M.few };

    ghost generator_law = { image_generator_order M.LEVEL M.width M.modulus M.images M.isomorphism_law M.few M.width_law };
}

impl<R: Unsigned, L: Level<R>, M: Modulus<R, L>> LevelKernel<R> for Polynomials<M, L> {
    ghost basis = { basis_image M.width M.modulus M.images };

    ghost cantor = { cantor_vector };

    const LOG_BITS: usize = L::LEVEL;

    ghost LOG_BITS = { M.LEVEL };

    #[inline]
    fn multiply_by_alpha(x: R) -> R {
        M::multiply(M::ALPHA, x)
    }

    fn cantor_vector(i: usize) -> R {
        M::to_polynomial(R::of_u128(cantor_vector(i)))
    }

    ghost bits_law = { M.width_law };

    ghost basis_law = { M.isomorphism_law.isomorphism };

    ghost cantor_law = { level_cantor M.LEVEL M.few };

    ghost generator_image_law = { refl };
}
