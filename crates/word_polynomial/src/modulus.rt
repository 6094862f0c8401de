// What differs between the fields of polynomials.
ghost use Rattle.std.specs.Prelude.{◌≡◌, ◌≢◌, ◌<◌, ◌≤◌, ◌^◌, ℕ, List, bit_xor};
ghost use Rattle.field_base.specs.Basis.{basis_image, IsChangeOfBasis};
ghost use Rattle.field_base.specs.Field.{IsField};
ghost use Rattle.field_base.specs.Remainder.{mul_mod};
ghost use Rattle.field_base.specs.Tower.{root};
ghost use Rattle.field_base.specs.TowerBasis.{tower_generator};

use field_base::Unsigned;
use word_tower::Level;

/// An irreducible polynomial whose degree is the number of bits of the word `R`, by the arithmetic modulo it and by the change of
/// basis from the level `L` of the tower, which has as many bits.
pub trait Modulus<R: Unsigned, L: Level<R>> {
    // The degree, the polynomial, the number of the level, and the images of the roots that the tower adjoins.
    ghost width: { ℕ };

    ghost modulus: { ℕ };

    ghost LEVEL: { ℕ };

    ghost images: { List ℕ };

    /// The name of the type of the field's elements.
    const NAME: &'static str;

    /// The image of the generator of the tower's level.
    const GENERATOR: R;

    ghost GENERATOR: { R };

    /// The image of the root that the tower's level adjoins.
    const ALPHA: R;

    ghost ALPHA: { R };

    // The remainder of a polynomial of two words, low word first.
    ghost reduced: { R → R → ℕ };

    ghost field_law: { IsField width (mul_mod width modulus) };

    ghost isomorphism_law: { IsChangeOfBasis LEVEL width modulus images };

    ghost width_law: { width ≡ 2 ^ LEVEL };

    ghost few: { LEVEL ≤ 7 };

    /// The product.
    fn multiply(x: R, y: R) -> R
        ensures { R.number result ≡ mul_mod width modulus (R.number x) (R.number y) };

    /// The square.
    fn square(x: R) -> R
        ensures { R.number result ≡ mul_mod width modulus (R.number x) (R.number x) };

    /// The inverse of a polynomial, and 0 for 0.
    fn invert(x: R) -> R
        ensures fits { R.number result < 2 ^ width }
        ensures zero { R.number x ≡ 0 → R.number result ≡ 0 }
        ensures inverse { R.number x ≢ 0 → mul_mod width modulus (R.number x) (R.number result) ≡ 1 };

    /// The square root: the polynomial whose square is `x`.
    fn sqrt(x: R) -> R
        ensures fits { R.number result < 2 ^ width }
        ensures root { mul_mod width modulus (R.number result) (R.number result) ≡ R.number x };

    /// The polynomial that is the image of an element of the tower.
    fn to_polynomial(x: R) -> R
        ensures { R.number result ≡ basis_image width modulus images (R.number x) };

    /// The element of the tower whose image is the polynomial.
    fn to_tower(x: R) -> R
        ensures fits { R.number result < 2 ^ width }
        ensures image { basis_image width modulus images (R.number result) ≡ R.number x };

    /// The sum of the double word and the carryless product of `x` and `y`, not reduced yet.
    fn add_product(low: R, high: R, x: R, y: R) -> (R, R)
        ensures { reduced result.0 result.1 ≡ bit_xor (reduced low high) (mul_mod width modulus (R.number x) (R.number y)) };

    /// The sum of the double word and the carryless products of `a` by `p` and of `b` by `q`, not reduced yet. Bodies over vectors
    /// take both at once.
    #[inline]
    fn add_two_products(low: R, high: R, a: R, b: R, p: R, q: R) -> (R, R)
        ensures { reduced result.0 result.1
            ≡ bit_xor (bit_xor (reduced low high) (mul_mod width modulus (R.number a) (R.number p)))
            (mul_mod width modulus (R.number b) (R.number q)) }
    {
        let (first_low, first_high) = Self::add_product(low, high, a, p);
        Self::add_product(first_low, first_high, b, q)
    }

    /// The remainder of the sum.
    fn reduce_sum(low: R, high: R) -> R
        ensures { R.number result ≡ reduced low high };

    ghost bits_law: { width ≡ R.bits };

    ghost level_law: { LEVEL ≡ L.LEVEL };

    ghost reduced_zero: { reduced R.ZERO R.ZERO ≡ 0 };

    ghost reduced_fits: { (low high : R) → reduced low high < 2 ^ width };

    ghost generator_is: { GENERATOR ≡ R.of_number (basis_image width modulus images (tower_generator LEVEL)) };

    ghost alpha_is: { R.number ALPHA ≡ basis_image width modulus images (root LEVEL) };
}
