// Linear maps of the field of AES as matrices.
ghost use Rattle.std.specs.Prelude.{◌≡◌, ◌<◌, ℕ, [], ◌∷◌, map};
ghost use Rattle.field_base.specs.LinearMaps.{linear_image};
ghost use Rattle.field_base.specs.Powers.{repeated_square};
ghost use Rattle.field_base.specs.Remainder.{aes_modulus, mul_mod};
ghost use Rattle.field_element.specs.Element.{repr_of};
ghost use Rattle.word_tables.specs.Matrix.{images_of};

use field_base::traits::{PrimeCharacteristicRing, TowerLevel};
use field_element::Rijndael8b;
use word_tables::ByteMatrix;

/// The elements of `Rijndael8b` as bytes, and its maps that are linear over GF(2) as matrices. They are methods of a trait, since
/// a type has functions of its own in its crate alone.
pub trait RijndaelMaps: TowerLevel {
    /// The element that a byte is.
    fn from_byte(byte: u8) -> Self
        ensures { Self.repr result ≡ byte };

    /// The byte that the element is.
    fn to_byte(self) -> u8
        ensures { result ≡ Self.repr self };

    /// The map that multiplies a byte by the element.
    fn scaling_matrix(self) -> ByteMatrix
        ensures { (x : ℕ) → x < 256 → linear_image (images_of result) x ≡ Self.product (Self.repr self) x };

    /// The map that squares a byte `count` times.
    fn frobenius_map(count: usize) -> ByteMatrix
        ensures { (x : ℕ) → x < 256 → linear_image (images_of result) x ≡ repeated_square 1 Self.product count x };

    /// The element squared 0, 1, .., 7 times.
    fn frobenius_orbit(self) -> [Self; 8]
        ensures { map Self.repr result ≡ map (λ k. repeated_square 1 Self.product k (Self.repr self)) (0 ∷ 1 ∷ 2 ∷ 3 ∷ 4 ∷ 5 ∷ 6 ∷ 7 ∷ []) };
}

impl RijndaelMaps for Rijndael8b {
    #[inline]
    fn from_byte(byte: u8) -> Rijndael8b {
        Rijndael8b::from_repr(byte)
    }

    #[inline]
    fn to_byte(self) -> u8 {
        self.to_repr()
    }

    fn scaling_matrix(self) -> ByteMatrix {
        ByteMatrix::from_images([
            scaled(self, 1),
            scaled(self, 2),
            scaled(self, 4),
            scaled(self, 8),
            scaled(self, 16),
            scaled(self, 32),
            scaled(self, 64),
            scaled(self, 128),
        ])
    }

    fn frobenius_map(count: usize) -> ByteMatrix {
        ByteMatrix::from_images([
            squared(1, count),
            squared(2, count),
            squared(4, count),
            squared(8, count),
            squared(16, count),
            squared(32, count),
            squared(64, count),
            squared(128, count),
        ])
    }

    fn frobenius_orbit(self) -> [Rijndael8b; 8] {
        [
            self.exp_power_of_2(0),
            self.exp_power_of_2(1),
            self.exp_power_of_2(2),
            self.exp_power_of_2(3),
            self.exp_power_of_2(4),
            self.exp_power_of_2(5),
            self.exp_power_of_2(6),
            self.exp_power_of_2(7),
        ]
    }
}

// The product of an element and a byte.
#[inline]
fn scaled(element: Rijndael8b, byte: u8) -> u8
    ensures { result ≡ mul_mod 8 aes_modulus (repr_of element) byte }
{
    (element * Rijndael8b::from_repr(byte)).to_repr()
}

// A byte squared `count` times.
#[inline]
fn squared(byte: u8, count: usize) -> u8
    ensures { result ≡ repeated_square 1 (mul_mod 8 aes_modulus) count byte }
{
    Rijndael8b::from_repr(byte).exp_power_of_2(count).to_repr()
}
