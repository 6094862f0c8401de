// Vectors of sixteen and of thirty-two bytes, and tables of sixteen bytes in a register, looked up by the low and the high halves of
// their bytes. What works on bytes in lanes is written once over their trait.
//
// A look-up is one instruction (`pshufb`; `vpshufb` of 256 bits for thirty-two lanes on x86-64-v3, two of 128 bits on x86-64-v2), and
// no address depends on what is looked up.
ghost use Rattle.std.specs.Prelude.{◌≡◌, ◌<◌, ◌/◌, ◌%◌, ◌++◌, ℕ, List, bit_xor, length, map, slice_index};
ghost use Rattle.std.specs.Simd.Lanes.{Each1, zip2};
ghost use Rattle.std.proofs.Common.{Fits, w8};
ghost use Rattle.word_tables.specs.Nibbles.{entry_sum};

use std::simd::prelude::*;

/// A vector of bytes: sixteen or thirty-two lanes.
pub trait ByteVector: Copy {
    // The bytes of a vector, and how many they are.
    ghost bytes: { Self → List ℕ };

    ghost lanes: { ℕ };

    /// How many bytes it has.
    fn lane_count() -> usize
        ensures count { result ≡ lanes }
        ensures some { 0 < result };

    /// States how many bytes a vector has, and that they have 8 bits. Of an element of an array of vectors this is not known.
    fn holds_bytes(self)
        ensures count { length (bytes self) ≡ lanes }
        ensures fit { Each1 (Fits w8) (bytes self) };

    /// The sums of the bytes in each lane.
    fn sum(self, other: Self) -> Self
        ensures { bytes result ≡ zip2 bit_xor (bytes self) (bytes other) };

    /// The entry of the table at the low four bits of each byte.
    fn low_entries(self, table: u8x16) -> Self
        ensures { bytes result ≡ map (λ byte. slice_index table (byte % 16)) (bytes self) };

    /// The entry of the table at the high four bits of each byte.
    fn high_entries(self, table: u8x16) -> Self
        ensures { bytes result ≡ map (λ byte. slice_index table (byte / 16)) (bytes self) };
}

impl ByteVector for u8x16 {
    ghost bytes = { λ lanes. lanes };

    ghost lanes = { 16 };

    #[inline(always)]
    fn lane_count() -> usize {
        16
    }

    #[inline(always)]
    fn holds_bytes(self) {}

    #[inline(always)]
    fn sum(self, other: u8x16) -> u8x16 {
        self ^ other
    }

    #[inline(always)]
    fn low_entries(self, table: u8x16) -> u8x16 {
        table.swizzle_dyn(self & u8x16::splat(15))
    }

    #[inline(always)]
    fn high_entries(self, table: u8x16) -> u8x16 {
        table.swizzle_dyn(self >> u8x16::splat(4))
    }
}

// Each half is looked up in a copy of the table.
impl ByteVector for u8x32 {
    ghost bytes = { λ lanes. lanes };

    ghost lanes = { 32 };

    #[inline(always)]
    fn lane_count() -> usize {
        32
    }

    #[inline(always)]
    fn holds_bytes(self) {}

    #[inline(always)]
    fn sum(self, other: u8x32) -> u8x32 {
        self ^ other
    }

    #[inline(always)]
    fn low_entries(self, table: u8x16) -> u8x32 {
        joined(table, table).swizzle_dyn_within::<16>(self & u8x32::splat(15))
    }

    #[inline(always)]
    fn high_entries(self, table: u8x16) -> u8x32 {
        joined(table, table).swizzle_dyn_within::<16>(self >> u8x32::splat(4))
    }
}

/// The sums of the entries of two tables, at the low and at the high four bits of each byte.
#[inline(always)]
pub fn entry_sums<V: ByteVector>(low: u8x16, high: u8x16, bytes: V) -> V
    ensures { V.bytes result ≡ map (entry_sum low high) (V.bytes bytes) }
{
    bytes.low_entries(low).sum(bytes.high_entries(high))
}

/// Two vectors as one: the lanes of the first, and then those of the second.
#[inline(always)]
pub fn joined(first: u8x16, second: u8x16) -> u8x32
    ensures { result ≡ first ++ second }
{
    first.shuffle(
        second,
        [
            0, 1, 2, 3, 4, 5, 6, 7, 8, 9, 10, 11, 12, 13, 14, 15, 16, 17, 18, 19, 20, 21, 22, 23,
            24, 25, 26, 27, 28, 29, 30, 31,
        ],
    )
}

/// The first sixteen lanes, and the last sixteen.
#[inline(always)]
pub fn halves(lanes: u8x32) -> (u8x16, u8x16)
    ensures { (first second : List ℕ) → length first ≡ 16 → length second ≡ 16 → lanes ≡ first ++ second
        → (result.0 ≡ first) × (result.1 ≡ second) }
{
    (lanes.extract::<0, 16>(), lanes.extract::<16, 16>())
}
