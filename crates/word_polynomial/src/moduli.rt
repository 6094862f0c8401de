// Written by scripts/make_impls.py; do not edit.
// The three fields of polynomials, and the levels of the tower that each contains. At 8 bits their arithmetic is by tables of the
// bytes of AES, at 64 and 128 bits by carryless products and their remainders.
ghost use Rattle.std.specs.Prelude.{◌≡◌, ◌≢◌, ◌<◌, ◌≤◌, ◌%◌, ◌*◌, ◌+◌, ◌^◌, refl};
ghost use Rattle.std.proofs.Common.{lit<, lit≤};
ghost use native.Mathlib.Nat.{mod-lt};
ghost use Rattle.field_base.specs.Basis.{aes_images, ghash_images, poly64_images};
ghost use Rattle.field_base.specs.Remainder.{aes_modulus, ghash_modulus, poly64_modulus, rem};
ghost use Rattle.field_base.proofs.RemainderLaws.{rem_lt, rem_small};
ghost use Rattle.word_tables.proofs.Isomorphisms.{field_8, field_64, field_128, isomorphic_8, isomorphic_64, isomorphic_128};
ghost use Rattle.word_tables.proofs.RootImages.{ghash_alpha, poly64_alpha, rijndael_alpha};
ghost use Rattle.word_tables.proofs.RootImages.{ghash_generator, poly64_generator, rijndael_generator};

use crate::modulus::Modulus;
use crate::polynomials::Polynomials;
use crate::subfields::EmbedsIn;
use word_carryless::{
    invert_mod_64, invert_mod_128, multiply_64, multiply_64_twice, multiply_128,
    multiply_128_twice, multiply_mod_64, multiply_mod_128, reduce_64, reduce_128, split_128,
    sqrt_mod_64, sqrt_mod_128, square_mod_64, square_mod_128,
};
use word_tables::rijndael::{invert, multiply, sqrt, square};
use word_tables::{
    to_polynomial_8, to_polynomial_64, to_polynomial_128, to_tower_8, to_tower_64, to_tower_128,
};
use word_tower::{Bits8, Bits16, Bits32, Bits64, Bits128};

/// x^8 + x^4 + x^3 + x + 1, the modulus of AES (FIPS 197, section 4.2).
pub struct RijndaelModulus;

/// The kernel of `Rijndael8b`.
pub type RijndaelKernel = Polynomials<RijndaelModulus, Bits8>;

/// x^64 + x^4 + x^3 + x + 1 (G. Seroussi, Table of low-weight binary irreducible polynomials, 1998).
pub struct Poly64Modulus;

/// The kernel of `Poly64`.
pub type Poly64Kernel = Polynomials<Poly64Modulus, Bits64>;

/// x^128 + x^7 + x^2 + x + 1, the modulus of GHASH (NIST SP 800-38D, section 6.3).
pub struct GhashModulus;

/// The kernel of `Ghash128`.
pub type GhashKernel = Polynomials<GhashModulus, Bits128>;

impl Modulus<u8, Bits8> for RijndaelModulus {
    ghost width = { 8 };

    ghost modulus = { aes_modulus };

    ghost LEVEL = { 3 };

    ghost images = { aes_images };

    const NAME: &'static str = "Rijndael8b";

    const GENERATOR: u8 = 0x88;

    ghost GENERATOR = { 0x88 };

    const ALPHA: u8 = 0x35;

    ghost ALPHA = { 0x35 };

    // Products are bytes, so the low word holds their sum.
    ghost reduced = { λ low high. low % 2 ^ 8 };

    ghost field_law = { field_8 };

    ghost isomorphism_law = { isomorphic_8 };

    ghost width_law = { refl };

    ghost few = { lit≤ tt };

    #[inline]
    fn multiply(x: u8, y: u8) -> u8 {
        multiply(x, y)
    }

    #[inline]
    fn square(x: u8) -> u8 {
        square(x)
    }

    #[inline]
    fn invert(x: u8) -> u8 {
        invert(x)
    }

    #[inline]
    fn sqrt(x: u8) -> u8 {
        sqrt(x)
    }

    #[inline]
    fn to_polynomial(x: u8) -> u8 {
        to_polynomial_8(x)
    }

    #[inline]
    fn to_tower(x: u8) -> u8 {
        to_tower_8(x)
    }

    #[inline]
    fn add_product(low: u8, high: u8, x: u8, y: u8) -> (u8, u8) {
        (low ^ Self::multiply(x, y), high)
    }

    #[inline]
    fn reduce_sum(low: u8, _high: u8) -> u8 {
        low
    }

    ghost bits_law = { refl };

    ghost level_law = { refl };

    ghost reduced_zero = { refl };

    ghost reduced_fits = { λ low high. mod-lt low (lit< tt) };

    ghost generator_is = { rijndael_generator };

    ghost alpha_is = { rijndael_alpha };
}

impl EmbedsIn<u8, RijndaelKernel, u8> for Bits8 {
    ghost lies_law = { lit≤ tt };
}

impl Modulus<u64, Bits64> for Poly64Modulus {
    ghost width = { 64 };

    ghost modulus = { poly64_modulus };

    ghost LEVEL = { 6 };

    ghost images = { poly64_images };

    const NAME: &'static str = "Poly64";

    const GENERATOR: u64 = 0xc313_d8d1_bfae_2150;

    ghost GENERATOR = { 0xc313_d8d1_bfae_2150 };

    const ALPHA: u64 = 0x3f2a_7c50_1e89_8bcd;

    ghost ALPHA = { 0x3f2a_7c50_1e89_8bcd };

    ghost reduced = { λ low high. rem 64 poly64_modulus (high * 2 ^ 64 + low) };

    ghost field_law = { field_64 };

    ghost isomorphism_law = { isomorphic_64 };

    ghost width_law = { refl };

    ghost few = { lit≤ tt };

    #[inline]
    fn multiply(x: u64, y: u64) -> u64 {
        multiply_mod_64(x, y)
    }

    #[inline]
    fn square(x: u64) -> u64 {
        square_mod_64(x)
    }

    #[tactic(auto, using(crate::proofs::Fermat::power_inverts_64))]
    fn invert(x: u64) -> u64 {
        invert_mod_64(x)
    }

    #[inline]
    fn sqrt(x: u64) -> u64 {
        sqrt_mod_64(x)
    }

    #[inline]
    fn to_polynomial(x: u64) -> u64 {
        to_polynomial_64(x)
    }

    #[inline]
    fn to_tower(x: u64) -> u64 {
        to_tower_64(x)
    }

    #[inline]
    fn add_product(low: u64, high: u64, x: u64, y: u64) -> (u64, u64) {
        let (product_low, product_high) = split_128(multiply_64(x, y));
        (low ^ product_low, high ^ product_high)
    }

    #[inline]
    fn add_two_products(low: u64, high: u64, a: u64, b: u64, p: u64, q: u64) -> (u64, u64) {
        let (first, second) = multiply_64_twice(a, b, p, q);
        let (first_low, first_high) = split_128(first);
        let (second_low, second_high) = split_128(second);
        (
            low ^ first_low ^ second_low,
            high ^ first_high ^ second_high,
        )
    }

    #[inline]
    fn reduce_sum(low: u64, high: u64) -> u64 {
        reduce_64(low, high)
    }

    ghost bits_law = { refl };

    ghost level_law = { refl };

    ghost reduced_zero = { rem_small 64 poly64_modulus refl 0 (lit< tt) };

    ghost reduced_fits = { λ low high. rem_lt 64 poly64_modulus refl _ };

    ghost generator_is = { poly64_generator };

    ghost alpha_is = { poly64_alpha };
}

impl EmbedsIn<u64, Poly64Kernel, u8> for Bits8 {
    ghost lies_law = { lit≤ tt };
}

impl EmbedsIn<u64, Poly64Kernel, u16> for Bits16 {
    ghost lies_law = { lit≤ tt };
}

impl EmbedsIn<u64, Poly64Kernel, u32> for Bits32 {
    ghost lies_law = { lit≤ tt };
}

impl EmbedsIn<u64, Poly64Kernel, u64> for Bits64 {
    ghost lies_law = { lit≤ tt };
}

impl Modulus<u128, Bits128> for GhashModulus {
    ghost width = { 128 };

    ghost modulus = { ghash_modulus };

    ghost LEVEL = { 7 };

    ghost images = { ghash_images };

    const NAME: &'static str = "Ghash128";

    const GENERATOR: u128 = 0xe5a5_755a_d217_f07d_1da7_0a74_7203_d630;

    ghost GENERATOR = { 0xe5a5_755a_d217_f07d_1da7_0a74_7203_d630 };

    const ALPHA: u128 = 0x9cfc_a256_33f9_993f_4e1f_5110_70b2_3e78;

    ghost ALPHA = { 0x9cfc_a256_33f9_993f_4e1f_5110_70b2_3e78 };

    ghost reduced = { λ low high. rem 128 ghash_modulus (high * 2 ^ 128 + low) };

    ghost field_law = { field_128 };

    ghost isomorphism_law = { isomorphic_128 };

    ghost width_law = { refl };

    ghost few = { lit≤ tt };

    #[inline]
    fn multiply(x: u128, y: u128) -> u128 {
        multiply_mod_128(x, y)
    }

    #[inline]
    fn square(x: u128) -> u128 {
        square_mod_128(x)
    }

    #[tactic(auto, using(crate::proofs::Fermat::power_inverts_128))]
    fn invert(x: u128) -> u128 {
        invert_mod_128(x)
    }

    #[inline]
    fn sqrt(x: u128) -> u128 {
        sqrt_mod_128(x)
    }

    #[inline]
    fn to_polynomial(x: u128) -> u128 {
        to_polynomial_128(x)
    }

    #[inline]
    fn to_tower(x: u128) -> u128 {
        to_tower_128(x)
    }

    #[inline]
    fn add_product(low: u128, high: u128, x: u128, y: u128) -> (u128, u128) {
        let (product_low, product_high) = multiply_128(x, y);
        (low ^ product_low, high ^ product_high)
    }

    #[inline]
    fn add_two_products(low: u128, high: u128, a: u128, b: u128, p: u128, q: u128) -> (u128, u128) {
        let ((first_low, first_high), (second_low, second_high)) = multiply_128_twice(a, b, p, q);
        (
            low ^ first_low ^ second_low,
            high ^ first_high ^ second_high,
        )
    }

    #[inline]
    fn reduce_sum(low: u128, high: u128) -> u128 {
        reduce_128(low, high)
    }

    ghost bits_law = { refl };

    ghost level_law = { refl };

    ghost reduced_zero = { rem_small 128 ghash_modulus refl 0 (lit< tt) };

    ghost reduced_fits = { λ low high. rem_lt 128 ghash_modulus refl _ };

    ghost generator_is = { ghash_generator };

    ghost alpha_is = { ghash_alpha };
}

impl EmbedsIn<u128, GhashKernel, u8> for Bits8 {
    ghost lies_law = { lit≤ tt };
}

impl EmbedsIn<u128, GhashKernel, u16> for Bits16 {
    ghost lies_law = { lit≤ tt };
}

impl EmbedsIn<u128, GhashKernel, u32> for Bits32 {
    ghost lies_law = { lit≤ tt };
}

impl EmbedsIn<u128, GhashKernel, u64> for Bits64 {
    ghost lies_law = { lit≤ tt };
}

impl EmbedsIn<u128, GhashKernel, u128> for Bits128 {
    ghost lies_law = { lit≤ tt };
}
