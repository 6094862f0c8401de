// Written by scripts/make_impls.py; do not edit.
// The unsigned integers of Rust as words that are read into vectors of their bytes. Words of 128 bits have an impl for all that hold them.
ghost use Rattle.std.specs.Prelude.{refl};
ghost use Rattle.additive_transforms.specs.lemmas.Chunk.{no_halves, one_half, two_halves, three_halves};

use crate::word_bytes::{StoredBytes, WordBytes};
use std::simd::prelude::*;

impl StoredBytes for u8 {
    ghost number_law = { refl };
}

impl StoredBytes for u16 {
    ghost number_law = { refl };
}

impl StoredBytes for u32 {
    ghost number_law = { refl };
}

impl StoredBytes for u64 {
    ghost number_law = { refl };
}

impl StoredBytes for u128 {
    ghost number_law = { refl };
}

impl WordBytes<u8> for u8 {
    ghost size = { 0 };

    #[inline(always)]
    fn read_bytes(words: &[u8], start: usize) -> u8x16 {
        u8x16::from_slice(&words[start..])
    }

    #[inline(always)]
    fn write_bytes(words: &mut [u8], start: usize, bytes: u8x16) {
        bytes.copy_to_slice(&mut words[start..]);
    }

    #[inline(always)]
    fn in_sixteen() -> usize {
        16
    }

    ghost size_law = { no_halves };

    ghost bits_law = { refl };
}

impl WordBytes<u16> for u16 {
    ghost size = { 1 };

    #[inline(always)]
    fn read_bytes(words: &[u16], start: usize) -> u8x16 {
        u16x8::from_slice(&words[start..]).to_le_bytes()
    }

    #[inline(always)]
    fn write_bytes(words: &mut [u16], start: usize, bytes: u8x16) {
        u16x8::from_le_bytes(bytes).copy_to_slice(&mut words[start..]);
    }

    #[inline(always)]
    fn in_sixteen() -> usize {
        8
    }

    ghost size_law = { one_half };

    ghost bits_law = { refl };
}

impl WordBytes<u32> for u32 {
    ghost size = { 2 };

    #[inline(always)]
    fn read_bytes(words: &[u32], start: usize) -> u8x16 {
        u32x4::from_slice(&words[start..]).to_le_bytes()
    }

    #[inline(always)]
    fn write_bytes(words: &mut [u32], start: usize, bytes: u8x16) {
        u32x4::from_le_bytes(bytes).copy_to_slice(&mut words[start..]);
    }

    #[inline(always)]
    fn in_sixteen() -> usize {
        4
    }

    ghost size_law = { two_halves };

    ghost bits_law = { refl };
}

impl WordBytes<u64> for u64 {
    ghost size = { 3 };

    #[inline(always)]
    fn read_bytes(words: &[u64], start: usize) -> u8x16 {
        u64x2::from_slice(&words[start..]).to_le_bytes()
    }

    #[inline(always)]
    fn write_bytes(words: &mut [u64], start: usize, bytes: u8x16) {
        u64x2::from_le_bytes(bytes).copy_to_slice(&mut words[start..]);
    }

    #[inline(always)]
    fn in_sixteen() -> usize {
        2
    }

    ghost size_law = { three_halves };

    ghost bits_law = { refl };
}
