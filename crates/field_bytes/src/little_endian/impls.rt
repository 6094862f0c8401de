// Written by scripts/make_impls.py; do not edit.
// The unsigned integers of Rust by their bytes.
ghost use Rattle.std.specs.Prelude.{◌≡◌, ◌<◌, ◌*◌, ◌+◌, ◌^◌, ◌%◌, refl};
ghost use Rattle.std.proofs.Common.{lit<};
ghost use Rattle.field_base.specs.Chunks.{chunk};
ghost use Rattle.field_bytes.specs.Bytes.{low_bytes, number_of_bytes};

use crate::little_endian::{LittleEndian, put_byte, read_byte, wide_of};
use field_base::Unsigned;

impl LittleEndian for u8 {
    const SIZE: usize = 1;

    ghost SIZE = { 1 };

    type Bytes = [u8; 1];

    ghost listed = { λ bytes. bytes };

    #[tactic(auto, using(crate::proofs::WordBytes::one_byte))]
    fn to_bytes(self) -> [u8; 1] {
        self.to_le_bytes()
    }

    fn byte(self, i: usize) -> u8 {
        read_byte(self, i)
    }

    fn with_byte(self, i: usize, byte: u8) -> u8 {
        put_byte(self, i, byte)
    }

    #[inline]
    fn wide(self, k: usize) -> u64 {
        wide_of(self, k)
    }

    #[inline]
    fn of_wide(n: u64) -> u8 {
        u8::of_u128(u128::from(n))
    }

    #[inline]
    #[tactic(auto, using(crate::proofs::WordBytes::of_one))]
    fn from_bytes(bytes: [u8; 1]) -> u8 {
        u8::from_le_bytes(bytes)
    }

    ghost size_law = { refl };

    ghost wide_law = { lit< tt };
}

impl LittleEndian for u16 {
    const SIZE: usize = 2;

    ghost SIZE = { 2 };

    type Bytes = [u8; 2];

    ghost listed = { λ bytes. bytes };

    #[tactic(auto, using(crate::proofs::WordBytes::two_bytes))]
    fn to_bytes(self) -> [u8; 2] {
        self.to_le_bytes()
    }

    fn byte(self, i: usize) -> u8 {
        read_byte(self, i)
    }

    fn with_byte(self, i: usize, byte: u8) -> u16 {
        put_byte(self, i, byte)
    }

    #[inline]
    fn wide(self, k: usize) -> u64 {
        wide_of(self, k)
    }

    #[inline]
    fn of_wide(n: u64) -> u16 {
        u16::of_u128(u128::from(n))
    }

    #[inline]
    #[tactic(auto, using(crate::proofs::WordBytes::of_two))]
    fn from_bytes(bytes: [u8; 2]) -> u16 {
        u16::from_le_bytes(bytes)
    }

    ghost size_law = { refl };

    ghost wide_law = { lit< tt };
}

impl LittleEndian for u32 {
    const SIZE: usize = 4;

    ghost SIZE = { 4 };

    type Bytes = [u8; 4];

    ghost listed = { λ bytes. bytes };

    #[tactic(auto, using(crate::proofs::WordBytes::four_bytes))]
    fn to_bytes(self) -> [u8; 4] {
        self.to_le_bytes()
    }

    fn byte(self, i: usize) -> u8 {
        read_byte(self, i)
    }

    fn with_byte(self, i: usize, byte: u8) -> u32 {
        put_byte(self, i, byte)
    }

    #[inline]
    fn wide(self, k: usize) -> u64 {
        wide_of(self, k)
    }

    #[inline]
    fn of_wide(n: u64) -> u32 {
        u32::of_u128(u128::from(n))
    }

    #[inline]
    #[tactic(auto, using(crate::proofs::WordBytes::of_four))]
    fn from_bytes(bytes: [u8; 4]) -> u32 {
        u32::from_le_bytes(bytes)
    }

    ghost size_law = { refl };

    ghost wide_law = { lit< tt };
}

impl LittleEndian for u64 {
    const SIZE: usize = 8;

    ghost SIZE = { 8 };

    type Bytes = [u8; 8];

    ghost listed = { λ bytes. bytes };

    #[tactic(auto, using(crate::proofs::WordBytes::eight_bytes))]
    fn to_bytes(self) -> [u8; 8] {
        self.to_le_bytes()
    }

    fn byte(self, i: usize) -> u8 {
        read_byte(self, i)
    }

    fn with_byte(self, i: usize, byte: u8) -> u64 {
        put_byte(self, i, byte)
    }

    #[inline]
    fn wide(self, k: usize) -> u64 {
        wide_of(self, k)
    }

    #[inline]
    fn of_wide(n: u64) -> u64 {
        u64::of_u128(u128::from(n))
    }

    #[inline]
    #[tactic(auto, using(crate::proofs::WordBytes::of_eight))]
    fn from_bytes(bytes: [u8; 8]) -> u64 {
        u64::from_le_bytes(bytes)
    }

    ghost size_law = { refl };

    ghost wide_law = { lit< tt };
}

impl LittleEndian for u128 {
    const SIZE: usize = 16;

    ghost SIZE = { 16 };

    type Bytes = [u8; 16];

    ghost listed = { λ bytes. bytes };

    #[tactic(auto, using(crate::proofs::WordBytes::sixteen_bytes))]
    fn to_bytes(self) -> [u8; 16] {
        self.to_le_bytes()
    }

    fn byte(self, i: usize) -> u8 {
        read_byte(self, i)
    }

    fn with_byte(self, i: usize, byte: u8) -> u128 {
        put_byte(self, i, byte)
    }

    #[inline]
    fn wide(self, k: usize) -> u64 {
        wide_of(self, k)
    }

    #[inline]
    fn of_wide(n: u64) -> u128 {
        u128::of_u128(u128::from(n))
    }

    #[inline]
    #[tactic(auto, using(crate::proofs::WordBytes::of_sixteen))]
    fn from_bytes(bytes: [u8; 16]) -> u128 {
        u128::from_le_bytes(bytes)
    }

    ghost size_law = { refl };

    ghost wide_law = { lit< tt };
}
