// Written by scripts/make_impls.py; do not edit.
// The unsigned integers of Rust as elements of the levels of 8 to 128 bits.
ghost use Rattle.std.specs.Prelude.{◌≡◌, ◌<◌, ◌≤◌, ◌*◌, ◌%◌, ◌^◌, refl};
ghost use Rattle.std.proofs.Common.{lit≤};

use super::TowerWord;
use word_tower::{Bits8, Bits16, Bits32, Bits64, Bits128, Level};

impl TowerWord for u8 {
    ghost LEVEL = { 3 };

    const BITS: usize = 8;

    ghost BITS = { 8 };

    const COUNT: usize = 16;

    ghost COUNT = { 16 };

    #[inline(always)]
    fn to_number(self) -> u128 {
        u128::from(self)
    }

    #[inline(always)]
    fn of_number(bits: u128) -> u8 {
        (bits % 0x100) as u8
    }

    #[inline]
    fn multiply(self, other: u8) -> u8 {
        Bits8::multiply(self, other)
    }

    #[inline]
    fn invert(self) -> u8 {
        Bits8::invert(self)
    }

    ghost few_law = { lit≤ tt };

    ghost bits_law = { refl };

    ghost whole_law = { refl };
}

impl TowerWord for u16 {
    ghost LEVEL = { 4 };

    const BITS: usize = 16;

    ghost BITS = { 16 };

    const COUNT: usize = 8;

    ghost COUNT = { 8 };

    #[inline(always)]
    fn to_number(self) -> u128 {
        u128::from(self)
    }

    #[inline(always)]
    fn of_number(bits: u128) -> u16 {
        (bits % 0x1_0000) as u16
    }

    #[inline]
    fn multiply(self, other: u16) -> u16 {
        Bits16::multiply(self, other)
    }

    #[inline]
    fn invert(self) -> u16 {
        Bits16::invert(self)
    }

    ghost few_law = { lit≤ tt };

    ghost bits_law = { refl };

    ghost whole_law = { refl };
}

impl TowerWord for u32 {
    ghost LEVEL = { 5 };

    const BITS: usize = 32;

    ghost BITS = { 32 };

    const COUNT: usize = 4;

    ghost COUNT = { 4 };

    #[inline(always)]
    fn to_number(self) -> u128 {
        u128::from(self)
    }

    #[inline(always)]
    fn of_number(bits: u128) -> u32 {
        (bits % 0x1_0000_0000) as u32
    }

    #[inline]
    fn multiply(self, other: u32) -> u32 {
        Bits32::multiply(self, other)
    }

    #[inline]
    fn invert(self) -> u32 {
        Bits32::invert(self)
    }

    ghost few_law = { lit≤ tt };

    ghost bits_law = { refl };

    ghost whole_law = { refl };
}

impl TowerWord for u64 {
    ghost LEVEL = { 6 };

    const BITS: usize = 64;

    ghost BITS = { 64 };

    const COUNT: usize = 2;

    ghost COUNT = { 2 };

    #[inline(always)]
    fn to_number(self) -> u128 {
        u128::from(self)
    }

    #[inline(always)]
    fn of_number(bits: u128) -> u64 {
        (bits % 0x1_0000_0000_0000_0000) as u64
    }

    #[inline]
    fn multiply(self, other: u64) -> u64 {
        Bits64::multiply(self, other)
    }

    #[inline]
    fn invert(self) -> u64 {
        Bits64::invert(self)
    }

    ghost few_law = { lit≤ tt };

    ghost bits_law = { refl };

    ghost whole_law = { refl };
}

impl TowerWord for u128 {
    ghost LEVEL = { 7 };

    const BITS: usize = 128;

    ghost BITS = { 128 };

    const COUNT: usize = 1;

    ghost COUNT = { 1 };

    #[inline(always)]
    fn to_number(self) -> u128 {
        self
    }

    #[inline(always)]
    fn of_number(bits: u128) -> u128 {
        bits
    }

    #[inline]
    fn multiply(self, other: u128) -> u128 {
        Bits128::multiply(self, other)
    }

    #[inline]
    fn invert(self) -> u128 {
        Bits128::invert(self)
    }

    ghost few_law = { lit≤ tt };

    ghost bits_law = { refl };

    ghost whole_law = { refl };
}
