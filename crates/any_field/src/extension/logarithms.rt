// Discrete logarithms: the least exponent to which the power of a base is an element (R. Lidl and H. Niederreiter, Finite Fields, chapter
// 9).
ghost use Rattle.std.specs.Prelude.{◌≡◌, ◌≢◌, ◌%◌, ◌^◌, ◌<◌, ℕ, IfNone, IfSome};
ghost use Rattle.field_base.specs.Powers.{power};
ghost use Rattle.any_field.specs.Contexts.{field_product};

use crate::extension::BinaryExtension;
use crate::reduction::low_bits;

impl BinaryExtension {
    /// The logarithm of an element: the least exponent to which the power of `base` is `x`, below 2^degree. `None` exactly where no power
    /// is. It goes along the powers, so that it takes up to 2^degree - 1 products: for fields of up to some 24 bits.
    pub fn logarithm(self, x: u128, base: u128) -> Option<u128>
        ensures found { IfSome result (λ e. power 1 (field_product self.degree self.tail) base e ≡ x % 2 ^ self.degree) }
        ensures least { IfSome result (λ e. (k : ℕ) → k < e → power 1 (field_product self.degree self.tail) base k ≢ x % 2 ^ self.degree) }
        ensures none { IfNone result ((k : ℕ) → power 1 (field_product self.degree self.tail) base k ≢ x % 2 ^ self.degree) }
    {
        let x = low_bits(x, self.degree);
        if x == 1 {
            return Some(0);
        }
        let base = low_bits(base, self.degree);
        let mut power = base;
        let mut exponent: u128 = 1;
        while power != x {
            if power <= 1 {
                return None;
            }
            power = self.multiply(power, base);
            exponent += 1;
        }
        Some(exponent)
    }
}
