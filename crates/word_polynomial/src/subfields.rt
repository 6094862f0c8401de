// Levels of the tower inside a field of polynomials: an element is replaced by its image.
ghost use Rattle.std.specs.Prelude.{◌≡◌, ◌<◌, ◌≤◌, ◌^◌, ℕ};
ghost use Rattle.field_base.specs.Basis.{basis_image};

use crate::modulus::Modulus;
use crate::polynomials::Polynomials;
use field_base::{Contains, LevelKernel, Unsigned};
use word_tower::{Level, Tower};

/// A level of the tower that embeds in the field of polynomials `K`: operators with an element of the level on the right use
/// its image.
pub trait EmbedsIn<R: Unsigned, K: LevelKernel<R>, S: Unsigned>: Level<S> {
    ghost lies_law: { Self.LEVEL ≤ K.LOG_BITS };
}

impl<
    R: Unsigned,
    B: Level<R>,
    M: Modulus<R, B>,
    S: Unsigned,
    L: EmbedsIn<R, Polynomials<M, B>, S>,
> Contains<R, S, Tower<L>> for Polynomials<M, B> {
    ghost image = { basis_image M.width M.modulus M.images };

    #[inline]
    fn embed(x: S) -> R {
        M::to_polynomial(R::of_u128(x.to_u128()))
    }
}
