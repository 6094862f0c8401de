// Butterflies of two words by a scalar of a level of the tower (S. Gao and T. Mateer, Additive fast Fourier transforms over finite fields,
// IEEE Transactions on Information Theory 56, 2010).
ghost use Rattle.std.specs.Prelude.{◌≡◌, [], ◌∷◌, ◌^◌, ◌<◌, ◌≤◌, Bool, ℕ, slice_index};
ghost use Rattle.additive_transforms.specs.Stages.{TakesBlock};
ghost use Rattle.field_base.specs.Tower.{tower_mul};
ghost use Rattle.ghash_slices.specs.Stages.{add_multiple};
ghost use Rattle.additive_transforms.specs.Rows.{level_of};
ghost use Rattle.additive_transforms.specs.Words.{level_element};

use crate::chunks::{Scales, pair_of_numbers};
use field_base::Unsigned;
use std::marker::PhantomData;
use word_tower::Level;

/// A scalar of a level, by which the butterflies of words are computed, and which way.
pub(crate) trait Multiplies<R: Unsigned> {
    // The level.
    ghost level: { ℕ };

    // What it is as a number.
    ghost is_scalar: { Self → ℕ → Type 0 };

    // Whether the butterflies are the inverse ones.
    ghost inverse: { Self → Bool };

    /// The forward butterfly of two words by the scalar, `lo += s * hi` and then `hi += lo`, or the inverse one.
    fn pair(&self, lo: R, hi: R) -> (R, R)
        ensures { (s : ℕ) → is_scalar self.now s → let element = level_element R.number level in
            TakesBlock (inverse self.now) (tower_mul level) s 1 (slice_index (element lo ∷ element hi ∷ []))
            (slice_index (element result.0 ∷ element result.1 ∷ [])) };
}

/// A scalar of all the bits of a level.
#[derive(Drop)]
pub(crate) struct WholeScalar<R, L> {
    pub(crate) scalar: R,
    pub(crate) inverse: bool,
    pub(crate) level: PhantomData<L>,
}

impl<R: Unsigned, L: Level<R>> Multiplies<R> for WholeScalar<R, L> {
    ghost level = { L.LEVEL };

    ghost is_scalar = { λ whole s. R.number whole.scalar ≡ s };

    ghost inverse = { λ whole. whole.inverse };

    #[inline(always)]
    fn pair(&self, lo: R, hi: R) -> (R, R) {
        let inverse = self.inverse;
        if inverse {
            let high = hi.xor(lo);
            (sum_of_multiple::<R, L>(lo, high, self.scalar), high)
        } else {
            let low = sum_of_multiple::<R, L>(lo, hi, self.scalar);
            (low, hi.xor(low))
        }
    }
}

// `x`, and the product of `y` by the scalar.
#[inline(always)]
fn sum_of_multiple<R: Unsigned, L: Level<R>>(x: R, y: R, scalar: R) -> R
    ensures { (s : ℕ) → R.number scalar ≡ s → let element = level_element R.number L.LEVEL in
        element result ≡ add_multiple (tower_mul L.LEVEL) s (element x) (element y) }
{
    x.xor(L::multiply(scalar, y))
}

/// A scalar of a lower level, by its multiples.
#[derive(Drop)]
pub(crate) struct ChunkScalar<M, L> {
    pub(crate) multiples: M,
    pub(crate) inverse: bool,
    pub(crate) level: PhantomData<L>,
}

impl<R: Unsigned, L: Level<R>, M: Scales> Multiplies<R> for ChunkScalar<M, L> {
    ghost level = { L.LEVEL };

    ghost is_scalar = { λ chunk s. M.are_multiples chunk.multiples s × (s < 2 ^ 2 ^ level_of M.depth) × (level_of M.depth ≤ L.LEVEL) };

    ghost inverse = { λ chunk. chunk.inverse };

    #[inline(always)]
    fn pair(&self, lo: R, hi: R) -> (R, R) {
        let (low, high) = pair_of_numbers(
            &self.multiples,
            lo.to_u128(),
            hi.to_u128(),
            self.inverse,
        );
        (R::of_u128(low), R::of_u128(high))
    }
}
