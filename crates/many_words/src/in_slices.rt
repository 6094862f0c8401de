// Products and inverses of words of a level of the tower by slices of their bits: as many words at once as a vector has bits. Polynomials of
// 64 and 128 bits are inverted by the level of the tower that is their field.
ghost use Rattle.std.specs.Prelude.{◌≡◌, ◌<◌, ◌^◌, ℕ, get_or, length};
ghost use Rattle.field_base.specs.Basis.{basis_image};
ghost use Rattle.field_base.specs.Remainder.{mul_mod};
ghost use Rattle.field_base.specs.TowerBasis.{tower_generator};
ghost use Rattle.many_words.specs.Words.{EachOfTwo, HoldInverses};
ghost use Rattle.many_words.specs.Fields.{field_of};

mod impls;

use crate::bases::{ChangeOfBasis, FromTower, ToTower};
use bit_slices::{SlicesOf, TowerWord, Vector, invert_each};
use field_base::{FieldKernel, Holds, Stored, Unsigned};
use word_polynomial::{Modulus, Polynomials};
use word_tower::Level;

/// The least number of words that may pay in slices of bits.
pub(crate) const LEAST_IN_SLICES: usize = 32;

/// The least number of bytes whose products pay in slices of wide vectors, a block of which has as many.
pub(crate) const LEAST_BYTES_IN_SLICES: usize = 256;

/// The least number of polynomials that are inverted by the tower: a chain of products takes some times as long, but looks up nothing, and is
/// kept for one.
pub(crate) const LEAST_BY_TOWER: usize = 2;

/// A level of the tower whose words are multiplied and inverted in slices of bits. What computes over it names neither its slices nor its
/// words.
pub trait FieldInSlices<R: Stored>: FieldKernel<R> {
    /// Multiplies each product by the word at its place. The slices are of one length.
    fn multiply_in_slices<V: Vector, W: Holds<R>>(products: &mut [W], words: &[W])
        requires { length words.now ≡ length products.old }
        ensures long { length products.new ≡ length products.old }
        ensures products { EachOfTwo (field_of W.number Self.width Self.product Self.generator) (λ x y z. z ≡ Self.product x y)
            products.old words.now products.new };

    /// Leaves the inverse of each word, and 0 of 0.
    fn invert_in_slices<V: Vector, W: Holds<R>>(words: &mut [W])
        ensures long { length words.new ≡ length words.old }
        ensures inverses { HoldInverses (field_of W.number Self.width Self.product Self.generator) words.old words.new };
}

/// Leaves the inverse of each polynomial, and 0 of 0: the image of the inverse in the tower.
pub(crate) fn invert_images<
    R: Unsigned + TowerWord,
    W: Holds<R>,
    L: Level<R>,
    M: Modulus<R, L>,
    T: SlicesOf<R>,
>(words: &mut [W])
    requires { R.TowerWord.LEVEL ≡ M.LEVEL }
    ensures long { length words.new ≡ length words.old }
    ensures inverses { HoldInverses (field_of W.number M.width (mul_mod M.width M.modulus)
        (basis_image M.width M.modulus M.images (tower_generator M.LEVEL))) words.old words.new }
{
    change_all::<R, W, ToTower<Polynomials<M, L>>>(words);
    invert_each::<R, W, T>(words);
    change_all::<R, W, FromTower<Polynomials<M, L>>>(words);
}

// Leaves the image of each word under the change of basis.
fn change_all<R: Stored, W: Holds<R>, C: ChangeOfBasis<R>>(words: &mut [W])
    ensures long { length words.new ≡ length words.old }
    ensures images { (k : ℕ) → k < length words.new → (d : W)
        → C.relates (W.number (get_or words.old k d)) (W.number (get_or words.new k d)) }
{
    for place in 0..words.len() {
        words[place] = W::of_stored(C::change(words[place].stored()));
    }
}
