// Inverses by Euclid's algorithm (D. E. Knuth, The Art of Computer Programming, volume 2, section 4.6.1), and quotients.
ghost use Rattle.std.specs.Prelude.{◌≡◌, ◌≢◌, ◌%◌, ◌^◌, ◌<◌, IfNone, IfSome};
ghost use Rattle.field_base.specs.Field.{IsInverseOrZero};
ghost use Rattle.any_field.specs.Contexts.{field_product};

use crate::extension::BinaryExtension;
use crate::reduction::{low_bits, multiply};

impl BinaryExtension {
    /// The inverse, and 0 for 0.
    pub fn invert(self, x: u128) -> u128
        ensures inverse { IsInverseOrZero (field_product self.degree self.tail) (x % 2 ^ self.degree) result }
        ensures fits { result < 2 ^ self.degree }
    {
        self.inverse_of(low_bits(x, self.degree))
    }

    // The inverse of an element, and 0 for 0. `a` is `u x` and `b` is `v x` modulo the modulus, and while the degrees of `a` and `b` fall, those
    // of `u` and `v` grow, but stay below that of the modulus.
    fn inverse_of(self, x: u128) -> u128
        requires { x < 2 ^ self.degree }
        ensures inverse { IsInverseOrZero (field_product self.degree self.tail) x result }
        ensures fits { result < 2 ^ self.degree }
    {
        if x == 0 {
            return 0;
        }
        if x == 1 {
            return 1;
        }
        let shift = self.degree + x.leading_zeros() - 128;
        let mut a = x;
        let mut u: u128 = 1;
        let mut b = self.tail ^ low_bits((x << 1) << shift, self.degree);
        let mut v: u128 = (1 << 1) << shift;
        while a != 1 && b != 1 {
            if a >= b {
                let k = b.leading_zeros() - a.leading_zeros();
                a ^= b << k;
                u ^= v << k;
            } else {
                let k = a.leading_zeros() - b.leading_zeros();
                b ^= a << k;
                v ^= u << k;
            }
        }
        if a == 1 { u } else { v }
    }

    /// The element whose product with `y` is `x`; `None` exactly where the low bits of `y` are 0.
    pub fn divide(self, x: u128, y: u128) -> Option<u128>
        ensures quotient { IfSome result (λ q. (q < 2 ^ self.degree)
            × (field_product self.degree self.tail q y ≡ x % 2 ^ self.degree) × (y % 2 ^ self.degree ≢ 0)) }
        ensures none { IfNone result (y % 2 ^ self.degree ≡ 0) }
    {
        let y = low_bits(y, self.degree);
        if y == 0 {
            return None;
        }
        let x = low_bits(x, self.degree);
        Some(multiply(self.degree, self.tail, self.ratio, x, self.inverse_of(y)))
    }
}
