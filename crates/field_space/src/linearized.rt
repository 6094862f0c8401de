// Linearized polynomials over the field of AES.
ghost use Rattle.std.specs.Prelude.{◌≡◌, ◌<◌, ℕ, length, map, replicate};
ghost use Rattle.field_base.specs.LinearMaps.{linear_image};
ghost use Rattle.field_base.specs.Powers.{repeated_square};
ghost use Rattle.field_base.specs.Remainder.{aes_modulus, mul_mod};
ghost use Rattle.field_element.specs.Element.{repr_of};
ghost use Rattle.field_space.specs.Linearized.{linearized_value};
ghost use Rattle.word_tables.specs.Matrix.{images_of};

mod numbers;

use field_base::traits::{PrimeCharacteristicRing, TowerLevel};
use field_element::Rijndael8b;
use word_tables::ByteMatrix;

/// The polynomial that is the sum of coefficient j times x^(2^j), for j from 0 to 7. Every map of bytes that is linear over
/// GF(2) is one.
#[derive(Clone, Copy, Debug, PartialEq, Eq, Hash)]
pub struct LinearizedPoly8b {
    coefficients: [Rijndael8b; 8],
    ghost eight: { length coefficients ≡ 8 },
}

impl Default for LinearizedPoly8b {
    ghost is_default = { λ x. map repr_of x.coefficients ≡ replicate 8 0 };

    fn default() -> LinearizedPoly8b {
        LinearizedPoly8b {
            coefficients: [Rijndael8b::ZERO; 8],
        }
    }
}

impl LinearizedPoly8b {
    ghost use Rattle.field_space.specs.Polynomial.{coefficients_of};

    /// The polynomial with these coefficients, that of x first.
    pub fn new(coefficients: [Rijndael8b; 8]) -> LinearizedPoly8b
        ensures { coefficients_of result ≡ map repr_of coefficients }
    {
        LinearizedPoly8b { coefficients }
    }

    /// The coefficients, that of x first.
    pub fn coefficients(&self) -> [Rijndael8b; 8]
        ensures { map repr_of result ≡ coefficients_of self.now }
    {
        self.coefficients
    }

    /// The value at `x`.
    pub fn eval(&self, x: Rijndael8b) -> Rijndael8b
        ensures { repr_of result ≡ linearized_value (coefficients_of self.now) (repr_of x) }
    {
        let mut sum = Rijndael8b::ZERO;
        for place in 0..8usize {
            sum = sum + term(self.coefficients[place], x, place);
        }
        sum
    }

    /// The matrix of the map that the polynomial is.
    pub fn to_matrix(&self) -> ByteMatrix
        ensures { (x : ℕ) → x < 256 → linear_image (images_of result) x ≡ linearized_value (coefficients_of self.now) x }
    {
        ByteMatrix::from_images([
            self.image(1),
            self.image(2),
            self.image(4),
            self.image(8),
            self.image(16),
            self.image(32),
            self.image(64),
            self.image(128),
        ])
    }

    // The value at a byte, as a byte.
    fn image(&self, byte: u8) -> u8
        ensures { result ≡ linearized_value (coefficients_of self.now) byte }
    {
        self.eval(Rijndael8b::from_repr(byte)).to_repr()
    }
}

// The product of a coefficient and x squared `count` times.
#[inline]
fn term(coefficient: Rijndael8b, x: Rijndael8b, count: usize) -> Rijndael8b
    ensures { repr_of result ≡ mul_mod 8 aes_modulus (repr_of coefficient) (repeated_square 1 (mul_mod 8 aes_modulus) count (repr_of x)) }
{
    coefficient * x.exp_power_of_2(count)
}
