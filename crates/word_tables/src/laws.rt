// Laws of the changes of basis and of constant matrices, as contracts of functions that compute nothing.
ghost use Rattle.std.specs.Prelude.{◌≡◌, ◌<◌, ℕ};
ghost use Rattle.field_base.specs.Basis.{aes_images, AreRoots, ghash_images, IsChangeOfBasis, poly64_images};
ghost use Rattle.field_base.specs.Field.{IsField};
ghost use Rattle.field_base.specs.LinearMaps.{linear_image};
ghost use Rattle.field_base.specs.Remainder.{aes_modulus, ghash_modulus, mul_mod, poly64_modulus};
ghost use Rattle.word_tables.specs.Matrix.{images_of};

use crate::matrix::ByteMatrix;

/// States that the change of basis at 8 bits is an isomorphism, so that the polynomials modulo x^8 + x^4 + x^3 + x + 1 are
/// a field.
#[tactic(auto, using(crate::proofs::Isomorphisms::change_8))]
pub fn isomorphism_8()
    ensures roots { AreRoots 8 aes_modulus aes_images }
    ensures change { IsChangeOfBasis 3 8 aes_modulus aes_images }
    ensures field { IsField 8 (mul_mod 8 aes_modulus) }
{}

/// States that the change of basis at 64 bits is an isomorphism, so that the polynomials modulo x^64 + x^4 + x^3 + x + 1 are
/// a field.
#[tactic(auto, using(crate::proofs::Isomorphisms::change_64))]
pub fn isomorphism_64()
    ensures roots { AreRoots 64 poly64_modulus poly64_images }
    ensures change { IsChangeOfBasis 6 64 poly64_modulus poly64_images }
    ensures field { IsField 64 (mul_mod 64 poly64_modulus) }
{}

/// States that the change of basis at 128 bits is an isomorphism, so that the polynomials modulo
/// x^128 + x^7 + x^2 + x + 1 are a field.
#[tactic(auto, using(crate::proofs::Isomorphisms::change_128))]
pub fn isomorphism_128()
    ensures roots { AreRoots 128 ghash_modulus ghash_images }
    ensures change { IsChangeOfBasis 7 128 ghash_modulus ghash_images }
    ensures field { IsField 128 (mul_mod 128 ghash_modulus) }
{}

/// The constants `ZERO` and `IDENTITY` of [`ByteMatrix`], for what they are as maps: the first makes 0 of every byte, and the
/// second leaves every byte. A clause cannot name a constant of a struct that has a ghost field.
pub fn zero_and_identity() -> (ByteMatrix, ByteMatrix)
    ensures zero { (x : ℕ) → x < 256 → linear_image (images_of result.0) x ≡ 0 }
    ensures identity { (x : ℕ) → x < 256 → linear_image (images_of result.1) x ≡ x }
{
    (ByteMatrix::ZERO, ByteMatrix::IDENTITY)
}
