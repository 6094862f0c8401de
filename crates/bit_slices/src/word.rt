// Words that are elements of levels of the tower, one by one, and as many of them as have 128 bits.
ghost use Rattle.std.specs.Prelude.{◌≡◌, ◌<◌, ◌≤◌, ◌*◌, ◌%◌, ◌^◌, ℕ};
ghost use Rattle.field_base.specs.Field.{IsInverseOrZero};
ghost use Rattle.field_base.specs.Tower.{tower_mul};

mod impls;

use field_base::Stored;

/// A word of 8 to 128 bits that is an element of the level of the tower of as many bits.
pub trait TowerWord: Stored {
    // The level, and how many words have 128 bits.
    ghost LEVEL: { ℕ };

    /// How many bits a word has.
    const BITS: usize;

    ghost BITS: { ℕ };

    /// How many words have 128 bits.
    const COUNT: usize;

    ghost COUNT: { ℕ };

    /// The number of the word.
    fn to_number(self) -> u128
        ensures is { result ≡ Self.number self }
        ensures fits { result < 2 ^ 2 ^ LEVEL };

    /// The word of the low bits of a number.
    fn of_number(bits: u128) -> Self
        ensures { Self.number result ≡ bits % 2 ^ 2 ^ LEVEL };

    /// The product.
    fn multiply(self, other: Self) -> Self
        ensures { Self.number result ≡ tower_mul LEVEL (Self.number self) (Self.number other) };

    /// The inverse, and 0 for 0.
    fn invert(self) -> Self
        ensures fits { Self.number result < 2 ^ 2 ^ LEVEL }
        ensures inverse { IsInverseOrZero (tower_mul LEVEL) (Self.number self) (Self.number result) };

    // Levels of at most 128 bits, of which a whole number of words has 128.
    ghost few_law: { LEVEL ≤ 7 };

    ghost bits_law: { BITS ≡ 2 ^ LEVEL };

    ghost whole_law: { BITS * COUNT ≡ 128 };
}
