// Powers of elements: by an exponent, square roots, and the trace.
ghost use Rattle.std.specs.Prelude.{◌≡◌, ◌%◌, ◌^◌, ◌<◌};
ghost use Rattle.field_base.specs.Powers.{power, sum_of_squarings};
ghost use Rattle.any_field.specs.Contexts.{field_product};

use crate::extension::BinaryExtension;
use crate::reduction::{low_bits, square_times};

impl BinaryExtension {
    /// The element to the power of the exponent; to the power of 0 it is 1.
    pub fn power(self, x: u128, exponent: u128) -> u128
        ensures { result ≡ power 1 (field_product self.degree self.tail) x exponent }
    {
        let mut base = x;
        let mut rest = exponent;
        let mut value: u128 = 1;
        while rest != 0 {
            if rest % 2 == 1 {
                value = self.multiply(value, base);
            }
            base = self.square(base);
            rest /= 2;
        }
        value
    }

    /// The square root: the one element whose square it is. Takes one squaring fewer than the degree.
    pub fn square_root(self, x: u128) -> u128
        ensures root { field_product self.degree self.tail result result ≡ x % 2 ^ self.degree }
        ensures fits { result < 2 ^ self.degree }
    {
        let x = low_bits(x, self.degree);
        square_times(self.degree, self.tail, self.ratio, x, self.degree - 1)
    }

    /// The trace over GF(2): x + x^2 + x^4 + .., as many terms as the degree is. It is 0 or 1 (R. Lidl and H. Niederreiter, Finite Fields,
    /// chapter 2).
    pub fn trace(self, x: u128) -> u128
        ensures trace { result ≡ sum_of_squarings 1 (field_product self.degree self.tail) self.degree x }
        ensures bit { result < 2 }
    {
        let mut sum: u128 = 0;
        let mut moved = low_bits(x, self.degree);
        for _ in 0..self.degree {
            sum ^= moved;
            moved = self.square(moved);
        }
        sum
    }
}
