// Calls over slices of elements of a level of the tower, and of their images in a field of polynomials.
// Written by scripts/make_c_exports.py; do not edit.
ghost use Rattle.field_base.specs.Basis.{aes_images, basis_image, ghash_images, poly64_images};
ghost use Rattle.field_base.specs.Remainder.{aes_modulus, ghash_modulus, poly64_modulus};
ghost use Rattle.c_calls.specs.Calls.{TakesImages, TakesPreimages};
ghost use Rattle.c_calls.specs.Fields.{wide_number};
ghost use Rattle.many_words.specs.Fields.{itself};

use c_calls::{FromTower, GhashKernel, Poly64Kernel, RijndaelKernel, ToTower, Wide, slices};

/// The image in r8 of each element of t8, by the isomorphism of the two fields.
#[unsafe(no_mangle)]
pub extern "C" fn bf_t8_to_r8(values: &[u8], images: &mut [u8]) -> u32
    ensures { TakesImages itself (basis_image 8 aes_modulus aes_images) values.now images.old images.new result }
{
    slices::change_basis::<u8, u8, FromTower<RijndaelKernel>>(values, images)
}

/// The image in t8 of each element of r8, by the isomorphism of the two fields.
#[unsafe(no_mangle)]
pub extern "C" fn bf_r8_to_t8(values: &[u8], images: &mut [u8]) -> u32
    ensures { TakesPreimages itself (basis_image 8 aes_modulus aes_images) values.now images.old images.new result }
{
    slices::change_basis::<u8, u8, ToTower<RijndaelKernel>>(values, images)
}

/// The image in p64 of each element of t64, by the isomorphism of the two fields.
#[unsafe(no_mangle)]
pub extern "C" fn bf_t64_to_p64(values: &[u64], images: &mut [u64]) -> u32
    ensures { TakesImages itself (basis_image 64 poly64_modulus poly64_images) values.now images.old images.new result }
{
    slices::change_basis::<u64, u64, FromTower<Poly64Kernel>>(values, images)
}

/// The image in t64 of each element of p64, by the isomorphism of the two fields.
#[unsafe(no_mangle)]
pub extern "C" fn bf_p64_to_t64(values: &[u64], images: &mut [u64]) -> u32
    ensures { TakesPreimages itself (basis_image 64 poly64_modulus poly64_images) values.now images.old images.new result }
{
    slices::change_basis::<u64, u64, ToTower<Poly64Kernel>>(values, images)
}

/// The image in g128 of each element of t128, by the isomorphism of the two fields.
#[unsafe(no_mangle)]
pub extern "C" fn bf_t128_to_g128(values: &[Wide], images: &mut [Wide]) -> u32
    ensures { TakesImages wide_number (basis_image 128 ghash_modulus ghash_images) values.now images.old images.new result }
{
    slices::change_basis::<u128, Wide, FromTower<GhashKernel>>(values, images)
}

/// The image in t128 of each element of g128, by the isomorphism of the two fields.
#[unsafe(no_mangle)]
pub extern "C" fn bf_g128_to_t128(values: &[Wide], images: &mut [Wide]) -> u32
    ensures { TakesPreimages wide_number (basis_image 128 ghash_modulus ghash_images) values.now images.old images.new result }
{
    slices::change_basis::<u128, Wide, ToTower<GhashKernel>>(values, images)
}
