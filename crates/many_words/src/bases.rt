// Changes of basis between a level of the tower and the field of polynomials whose words are its own.
ghost use Rattle.std.specs.Prelude.{◌≡◌, ℕ};
ghost use Rattle.field_base.specs.Basis.{basis_image};

use field_base::{Stored, Unsigned};
use std::marker::PhantomData;
use word_polynomial::{Modulus, Polynomials};
use word_tower::Level;

/// A map of words to words, as a change of basis.
pub trait ChangeOfBasis<R: Stored> {
    // How the number of a word is related to that of its image.
    ghost relates: { ℕ → ℕ → Type 0 };

    /// The image of a word.
    fn change(x: R) -> R
        ensures { relates (R.number x) (R.number result) };
}

/// The polynomial that is the image of an element of the tower, in the field of the kernel `K`.
pub struct FromTower<K>(PhantomData<K>);

/// The element of the tower whose image is a polynomial of the field of the kernel `K`.
pub struct ToTower<K>(PhantomData<K>);

impl<R: Unsigned, L: Level<R>, M: Modulus<R, L>> ChangeOfBasis<R> for FromTower<Polynomials<M, L>> {
    ghost relates = { λ x y. y ≡ basis_image M.width M.modulus M.images x };

    #[inline]
    fn change(x: R) -> R {
        M::to_polynomial(x)
    }
}

impl<R: Unsigned, L: Level<R>, M: Modulus<R, L>> ChangeOfBasis<R> for ToTower<Polynomials<M, L>> {
    ghost relates = { λ x y. basis_image M.width M.modulus M.images y ≡ x };

    #[inline]
    fn change(x: R) -> R {
        M::to_tower(x)
    }
}
