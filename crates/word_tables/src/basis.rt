// The changes of basis of words and of slices, as linear maps by tables: of a byte by an entry, of wider words by one for each byte.
ghost use Rattle.std.specs.Prelude.{◌≡◌, ℕ, ◌^◌, ◌<◌};
ghost use Rattle.field_base.specs.Basis.{aes_images, basis_image};
ghost use Rattle.field_base.specs.Remainder.{aes_modulus};

mod by_bytes;

pub use crate::basis::by_bytes::{
    to_polynomial_64, to_polynomial_128, to_polynomial_slice_64, to_polynomial_slice_128,
    to_tower_64, to_tower_128, to_tower_slice_64, to_tower_slice_128,
};
use crate::literals::to_polynomial::TO_POLYNOMIAL_8;
use crate::literals::to_tower::TO_TOWER_8;

/// The polynomial modulo x^8 + x^4 + x^3 + x + 1 that is the image of an element of 8 bits.
#[inline]
pub fn to_polynomial_8(x: u8) -> u8
    ensures { result ≡ basis_image 8 aes_modulus aes_images x }
{
    TO_POLYNOMIAL_8[x as usize]
}

/// The one element of 8 bits whose image is the polynomial `x`.
#[inline]
pub fn to_tower_8(x: u8) -> u8
    ensures image { basis_image 8 aes_modulus aes_images result ≡ x }
    ensures only { (a : ℕ) → a < 2 ^ 8 → basis_image 8 aes_modulus aes_images a ≡ x → a ≡ result }
{
    TO_TOWER_8[x as usize]
}
