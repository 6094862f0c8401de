// The change of basis between the tower and the polynomials modulo x^128 + x^7 + x^2 + x + 1.
ghost use Rattle.std.specs.Prelude.{◌≡◌, map};
ghost use Rattle.field_base.specs.Basis.{basis_image, ghash_images};
ghost use Rattle.field_base.specs.Remainder.{ghash_modulus};
ghost use Rattle.field_element.specs.Element.{repr_of};

use crate::BinaryField128;
use field_base::traits::TowerLevel;
use word_tables::{to_polynomial_128, to_polynomial_slice_128, to_tower_128, to_tower_slice_128};

/// The polynomial that is the image of an element of the tower.
pub fn from_tower(x: BinaryField128) -> u128
    ensures { result ≡ basis_image 128 ghash_modulus ghash_images (repr_of x) }
{
    to_polynomial_128(x.to_repr())
}

/// The element of the tower whose image is the polynomial `v`; there is one.
pub fn to_tower(v: u128) -> BinaryField128
    ensures { basis_image 128 ghash_modulus ghash_images (repr_of result) ≡ v }
{
    BinaryField128::from_repr(to_tower_128(v))
}

/// Replaces each representation of an element of the tower by its image, as `from_tower` does.
pub fn from_tower_slice(values: &mut [u128])
    ensures { values.new ≡ map (basis_image 128 ghash_modulus ghash_images) values.old }
{
    to_polynomial_slice_128(values);
}

/// Replaces each polynomial by the representation of the element of the tower whose image it is, as `to_tower` does.
pub fn to_tower_slice(values: &mut [u128])
    ensures { map (basis_image 128 ghash_modulus ghash_images) values.new ≡ values.old }
{
    to_tower_slice_128(values);
}
