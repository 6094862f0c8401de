// The kernel of every level.
ghost use Rattle.std.specs.Prelude.{◌≡◌, ◌<◌, ◌≤◌, ◌*◌, ◌%◌, ◌/◌, ◌^◌, ℕ, refl};
ghost use Rattle.std.proofs.lemmas.Nat.{pow_pos};
ghost use native.Mathlib.Nat.{mod-lt};
ghost use Rattle.field_base.specs.lemmas.BitRing.{level_basis};
ghost use Rattle.field_base.specs.Powers.{repeated_square};
ghost use Rattle.field_base.specs.Tower.{root, tower_mul};
ghost use Rattle.field_base.specs.TowerBasis.{tower_generator};
ghost use Rattle.field_base.proofs.TowerBasisLemmas.{generator_lt, generator_nonzero};
ghost use Rattle.field_base.proofs.TowerLaws.{tower_field};
ghost use Rattle.word_tables.specs.Cantor.{cantor_vector};
ghost use Rattle.word_tables.proofs.LevelLaws.{at_most_four, level_cantor, level_generator};

use crate::level::Level;
use field_base::{FieldKernel, LevelKernel, Unsigned};
use std::marker::PhantomData;
use word_tables::{cantor_vector, repeated_square};

/// The level `L` of the tower, as a field.
pub struct Tower<L>(PhantomData<L>);

impl<R: Unsigned, L: Level<R>> FieldKernel<R> for Tower<L> {
    ghost width = { 2 ^ L.LEVEL };

    ghost product = { tower_mul L.LEVEL };

    ghost generator = { tower_generator L.LEVEL };

    const NAME: &'static str = L::NAME;

    const GENERATOR: R = L::GENERATOR;

    ghost GENERATOR = { L.GENERATOR };

    // Products are elements, so the low word holds their sum.
    ghost reduced = { λ low high. R.number low % 2 ^ 2 ^ L.LEVEL };

    ghost field_law = { tower_field L.LEVEL };

    ghost wide_law = { pow_pos L.LEVEL };

    ghost generator_fits = { generator_lt L.LEVEL L.few };

    #[inline]
    fn bits() -> usize {
        1 << L::LEVEL
    }

    #[inline]
    fn truncate(x: R) -> R {
        L::truncate(x)
    }

    #[inline]
    fn multiply(x: R, y: R) -> R {
        L::multiply(x, y)
    }

    #[inline]
    fn square(x: R) -> R {
        L::square(x)
    }

    #[inline]
    fn invert(x: R) -> R {
        L::invert(x)
    }

    #[inline]
    fn sqrt(x: R) -> R {
        L::sqrt(x)
    }

    // The count is taken modulo the bits. One conjugation replaces half of them, and tables of repeated squares the rest.
    #[inline]
    fn reduce_squarings(x: R, count: usize) -> (R, usize) {
        let bits = Self::bits();
        let rest = count % bits;
        let (element, fewer) = if rest < bits / 2 {
            (x, rest)
        } else {
            (L::conjugate(x), rest - bits / 2)
        };
        square_by_tables::<R, L>(element, fewer)
    }

    #[inline]
    fn no_products() -> (R, R) {
        (R::ZERO, R::ZERO)
    }

    #[inline]
    fn add_product(low: R, high: R, x: R, y: R) -> (R, R) {
        (low.xor(L::multiply(x, y)), high)
    }

    #[inline]
    fn reduce_sum(low: R, _high: R) -> R {
        L::truncate(low)
    }

    ghost room_law = { L.room_law };

    ghost reduced_fits = { λ low high. mod-lt (R.number low) (pow_pos (2 ^ L.LEVEL)) };

    ghost generator_is = { L.generator_is };

    ghost generator_nonzero = { generator_nonzero L.LEVEL L.few };

    ghost generator_law = { λ small. level_generator L.LEVEL (at_most_four L.LEVEL small) };
}

impl<R: Unsigned, L: Level<R>> LevelKernel<R> for Tower<L> {
    ghost basis = { λ a. a };

    ghost cantor = { cantor_vector };

    const LOG_BITS: usize = L::LEVEL;

    ghost LOG_BITS = { L.LEVEL };

    #[inline]
    fn multiply_by_alpha(x: R) -> R {
        L::multiply_by_root(x)
    }

    fn cantor_vector(i: usize) -> R {
        R::of_u128(cantor_vector(i))
    }

    ghost bits_law = { refl };

    ghost basis_law = { level_basis L.LEVEL };

    ghost cantor_law = { level_cantor L.LEVEL L.few };

    ghost generator_image_law = { refl };
}

// An element squared fewer times than half of its bits, by a table for each set bit of the count. At a level of 1 or 2 bits
// the count is 0.
#[inline]
fn square_by_tables<R: Unsigned, L: Level<R>>(x: R, count: usize) -> (R, usize)
    requires fits { R.number x < 2 ^ 2 ^ L.LEVEL }
    requires few { 2 * count < 2 ^ L.LEVEL }
    ensures fits { R.number result.0 < 2 ^ 2 ^ L.LEVEL }
    ensures few { result.1 < 2 ^ L.LEVEL }
    ensures squarings { let squared = repeated_square 1 (tower_mul L.LEVEL) in
        squared result.1 (R.number result.0) ≡ squared count (R.number x) }
{
    if L::LEVEL < 2 {
        (x, count)
    } else {
        (R::of_u128(repeated_square(L::LEVEL, x.to_u128(), count)), 0)
    }
}
