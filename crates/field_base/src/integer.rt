// The integer types of Rust, by the parity of a number and by the numbers 0 and 1.
ghost use Rattle.std.specs.Prelude.{◌≡◌, ◌≢◌, ◌⊎◌, ◌↔◌, ℕ, ℤ, pos, IsTrue, IsNone, IfSome};
ghost use Rattle.field_base.specs.Bit.{bit_number};
ghost use Rattle.field_base.specs.Powers.{parity};

mod impls;

use crate::Gf2;
use crate::traits::PrimeCharacteristicRing;

/// An integer type of Rust.
pub trait Integer: Copy {
    // The whole number that a value is.
    ghost value: { Self → ℤ };

    /// Whether the number is odd.
    fn is_odd(self) -> bool
        ensures { IsTrue result ↔ (parity (value self) ≡ 1) };

    /// Whether the number is 0 or 1.
    fn is_bit(self) -> bool
        ensures { IsTrue result ↔ ((value self ≡ pos 0) ⊎ (value self ≡ pos 1)) };

    /// The element of GF(2) that 0 or 1 is, and None for any other number.
    final fn as_bit(self) -> Option<Gf2>
        ensures none { IsNone result ↔ ((value self ≢ pos 0) × (value self ≢ pos 1)) }
        ensures bit { IfSome result (λ bit. value self ≡ pos (bit_number bit)) }
    {
        if self.is_bit() {
            Some(Gf2::from_bool(self.is_odd()))
        } else {
            None
        }
    }
}
