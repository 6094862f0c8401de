// Products and inverses of slices of words, in place.
ghost use Rattle.std.specs.Prelude.{◌≡◌, ◌<◌, ◌≤◌, ◌^◌, ℕ, get_or, length};
ghost use Rattle.field_base.specs.Field.{IsInverseOrZero};
ghost use Rattle.field_base.specs.Remainder.{mul_mod};
ghost use Rattle.field_base.specs.Tower.{tower_mul};

use crate::blocks::change_each;
use crate::moduli::PolynomialBlock;
use crate::operations::{Inverse, PolynomialProduct, Product};
use crate::sliced::SlicesOf;
use crate::vector::Vector;
use crate::word::TowerWord;
use field_base::Holds;

/// Multiplies each word by the factor at its place, in slices `T`. Requires as many factors as words.
pub fn multiply_each<R: TowerWord, W: Holds<R>, T: SlicesOf<R>>(words: &mut [W], factors: &[W])
    requires { length factors.now ≡ length words.old }
    ensures long { length words.new ≡ length words.old }
    ensures products { (k : ℕ) → k < length words.new → (d : W) → W.number (get_or words.new k d)
        ≡ tower_mul R.LEVEL (W.number (get_or words.old k d)) (W.number (get_or factors.now k d)) }
{
    change_each::<R, W, T, Product>(words, factors);
}

/// Inverts each word, in slices `T`, and leaves 0 at 0.
pub fn invert_each<R: TowerWord, W: Holds<R>, T: SlicesOf<R>>(words: &mut [W])
    ensures long { length words.new ≡ length words.old }
    ensures fit { (k : ℕ) → k < length words.new → (d : W) → W.number (get_or words.new k d) < 2 ^ 2 ^ R.LEVEL }
    ensures inverses { (k : ℕ) → k < length words.new → (d : W)
        → IsInverseOrZero (tower_mul R.LEVEL) (W.number (get_or words.old k d)) (W.number (get_or words.new k d)) }
{
    change_each::<R, W, T, Inverse>(words, &[]);
}

/// Multiplies each polynomial by the factor at its place, in slices `T` and modulo their polynomial. Requires as many factors as words.
pub fn multiply_polynomials_each<
    V: Vector,
    R: TowerWord,
    W: Holds<R>,
    T: SlicesOf<R> + PolynomialBlock<V>,
>(words: &mut [W], factors: &[W])
    requires { length factors.now ≡ length words.old }
    ensures long { length words.new ≡ length words.old }
    ensures products { (k : ℕ) → k < length words.new → (d : W) → W.number (get_or words.new k d)
        ≡ mul_mod (2 ^ R.LEVEL) T.modulus (W.number (get_or words.old k d)) (W.number (get_or factors.now k d)) }
{
    change_each::<R, W, T, PolynomialProduct<V>>(words, factors);
}
