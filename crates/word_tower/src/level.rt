// What differs between the levels of the tower.
ghost use Rattle.std.specs.Prelude.{◌≡◌, ◌≢◌, ◌<◌, ◌≤◌, ◌^◌, ◌%◌, ◌/◌, ℕ};
ghost use Rattle.field_base.specs.Powers.{repeated_square};
ghost use Rattle.field_base.specs.Tower.{root, tower_mul};
ghost use Rattle.field_base.specs.TowerBasis.{tower_generator};

use field_base::Unsigned;

/// A level of the tower, by its arithmetic on words. An element of level k is a word whose number has 2^k bits. Products and
/// squares read only those bits of their operands.
pub trait Level<R: Unsigned> {
    /// The name of the type of the level's elements.
    const NAME: &'static str;

    /// The number of the level, which is the binary logarithm of its bits.
    const LEVEL: usize;

    ghost LEVEL: { ℕ };

    /// A generator: every nonzero element is a power of it.
    const GENERATOR: R;

    ghost GENERATOR: { R };

    ghost few: { LEVEL ≤ 7 };

    /// The word without its bits above the level.
    fn truncate(x: R) -> R
        ensures { R.number result ≡ R.number x % 2 ^ 2 ^ LEVEL };

    /// The product.
    fn multiply(x: R, y: R) -> R
        ensures { R.number result ≡ tower_mul LEVEL (R.number x) (R.number y) };

    /// The product by its definition, from products at the level below.
    fn reference_multiply(x: R, y: R) -> R
        ensures { R.number result ≡ tower_mul LEVEL (R.number x) (R.number y) };

    /// The square.
    fn square(x: R) -> R
        ensures { R.number result ≡ tower_mul LEVEL (R.number x) (R.number x) };

    /// The product of an element by the root that the level adjoins.
    fn multiply_by_root(x: R) -> R
        ensures { R.number result ≡ tower_mul LEVEL (root LEVEL) (R.number x) };

    /// The conjugate over the level below: the element squared half as many times as it has bits.
    #[inline]
    fn conjugate(x: R) -> R
        ensures { R.number result ≡ repeated_square 1 (tower_mul LEVEL) (2 ^ LEVEL / 2) (R.number x) }
    {
        let mut conjugate = Self::truncate(x);
        for _ in 0..(1usize << Self::LEVEL) / 2 {
            conjugate = Self::square(conjugate);
        }
        conjugate
    }

    /// The inverse of an element, by which the product is 1, and 0 for 0.
    fn invert(x: R) -> R
        requires { R.number x < 2 ^ 2 ^ LEVEL }
        ensures fits { R.number result < 2 ^ 2 ^ LEVEL }
        ensures zero { R.number x ≡ 0 → R.number result ≡ 0 }
        ensures inverse { R.number x ≢ 0 → tower_mul LEVEL (R.number x) (R.number result) ≡ 1 };

    /// The quotients of two elements by a nonzero divisor. A quotient of 0 is 0, whatever the divisor is.
    #[inline]
    #[tactic(auto, using(crate::proofs::Halves::product_of_inverse))]
    fn divide_both(x: R, y: R, divisor: R) -> (R, R)
        requires first { R.number x < 2 ^ 2 ^ LEVEL }
        requires second { R.number y < 2 ^ 2 ^ LEVEL }
        requires divisor { R.number divisor < 2 ^ 2 ^ LEVEL }
        ensures first_fits { R.number result.0 < 2 ^ 2 ^ LEVEL }
        ensures second_fits { R.number result.1 < 2 ^ 2 ^ LEVEL }
        ensures first_zero { R.number x ≡ 0 → R.number result.0 ≡ 0 }
        ensures second_zero { R.number y ≡ 0 → R.number result.1 ≡ 0 }
        ensures first { R.number divisor ≢ 0 → tower_mul LEVEL (R.number divisor) (R.number result.0) ≡ R.number x }
        ensures second { R.number divisor ≢ 0 → tower_mul LEVEL (R.number divisor) (R.number result.1) ≡ R.number y }
    {
        let over_divisor = Self::invert(divisor);
        (
            Self::multiply(x, over_divisor),
            Self::multiply(y, over_divisor),
        )
    }

    /// The square root of an element, whose square is the element.
    fn sqrt(x: R) -> R
        requires { R.number x < 2 ^ 2 ^ LEVEL }
        ensures fits { R.number result < 2 ^ 2 ^ LEVEL }
        ensures root { tower_mul LEVEL (R.number result) (R.number result) ≡ R.number x };

    ghost room_law: { 2 ^ LEVEL ≤ R.bits };

    ghost generator_is: { GENERATOR ≡ R.of_number (tower_generator LEVEL) };
}
