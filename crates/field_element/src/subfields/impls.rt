// Written by scripts/make_impls.py; do not edit.
// The levels of the tower below each level, with their conversions to it, and the changes of basis back to a level.
ghost use Rattle.std.specs.Prelude.{◌≡◌, ◌<◌, ◌^◌};
ghost use Rattle.field_base.specs.Basis.{basis_image};
ghost use Rattle.field_element.specs.Element.{repr_of};

use crate::element::Element;
use crate::names::{
    BinaryField8, BinaryField16, BinaryField32, BinaryField64, BinaryField128, Ghash128, Poly64,
    Rijndael8b,
};
use crate::subfields::Below;
use field_base::Unsigned;
use field_base::traits::TowerLevel;
use word_tables::{to_tower_8, to_tower_64, to_tower_128};
use word_tower::{Bits2, Bits8, Bits16, Bits32, Bits64, Bits128, Tower};

impl Below<u16, Tower<Bits16>, u8> for Bits8 {}

impl Below<u32, Tower<Bits32>, u8> for Bits8 {}

impl Below<u32, Tower<Bits32>, u16> for Bits16 {}

impl Below<u64, Tower<Bits64>, u8> for Bits8 {}

impl Below<u64, Tower<Bits64>, u16> for Bits16 {}

impl Below<u64, Tower<Bits64>, u32> for Bits32 {}

impl Below<u128, Tower<Bits128>, u8> for Bits8 {}

impl Below<u128, Tower<Bits128>, u16> for Bits16 {}

impl Below<u128, Tower<Bits128>, u32> for Bits32 {}

impl Below<u128, Tower<Bits128>, u64> for Bits64 {}

impl Below<u128, Tower<Bits128>, u8> for Bits2 {}

impl<S: Unsigned, L: Below<u16, Tower<Bits16>, S>> From<Element<S, Tower<L>>> for BinaryField16 {
    ghost from_gives = { λ x r. repr_of r ≡ repr_of x };

    fn from(element: Element<S, Tower<L>>) -> BinaryField16 {
        BinaryField16::of_word(u16::of_u128(element.word().to_u128()))
    }
}

impl<S: Unsigned, L: Below<u32, Tower<Bits32>, S>> From<Element<S, Tower<L>>> for BinaryField32 {
    ghost from_gives = { λ x r. repr_of r ≡ repr_of x };

    fn from(element: Element<S, Tower<L>>) -> BinaryField32 {
        BinaryField32::of_word(u32::of_u128(element.word().to_u128()))
    }
}

impl<S: Unsigned, L: Below<u64, Tower<Bits64>, S>> From<Element<S, Tower<L>>> for BinaryField64 {
    ghost from_gives = { λ x r. repr_of r ≡ repr_of x };

    fn from(element: Element<S, Tower<L>>) -> BinaryField64 {
        BinaryField64::of_word(u64::of_u128(element.word().to_u128()))
    }
}

impl<S: Unsigned, L: Below<u128, Tower<Bits128>, S>> From<Element<S, Tower<L>>> for BinaryField128 {
    ghost from_gives = { λ x r. repr_of r ≡ repr_of x };

    fn from(element: Element<S, Tower<L>>) -> BinaryField128 {
        BinaryField128::of_word(u128::of_u128(element.word().to_u128()))
    }
}

impl From<Rijndael8b> for BinaryField8 {
    ghost use Rattle.field_base.specs.Basis.{aes_images};
    ghost use Rattle.field_base.specs.Remainder.{aes_modulus};

    ghost from_gives = { λ x r. basis_image 8 aes_modulus aes_images (repr_of r) ≡ repr_of x };

    fn from(element: Rijndael8b) -> BinaryField8 {
        BinaryField8::of_word(to_tower_8(element.word()))
    }
}

impl From<Poly64> for BinaryField64 {
    ghost use Rattle.field_base.specs.Basis.{poly64_images};
    ghost use Rattle.field_base.specs.Remainder.{poly64_modulus};

    ghost from_gives = { λ x r. basis_image 64 poly64_modulus poly64_images (repr_of r) ≡ repr_of x };

    fn from(element: Poly64) -> BinaryField64 {
        BinaryField64::of_word(to_tower_64(element.word()))
    }
}

impl From<Ghash128> for BinaryField128 {
    ghost use Rattle.field_base.specs.Basis.{ghash_images};
    ghost use Rattle.field_base.specs.Remainder.{ghash_modulus};

    ghost from_gives = { λ x r. basis_image 128 ghash_modulus ghash_images (repr_of r) ≡ repr_of x };

    fn from(element: Ghash128) -> BinaryField128 {
        BinaryField128::of_word(to_tower_128(element.word()))
    }
}
