// Vectors of 128 and of 256 bits, in whose bits elements lie side by side.
ghost use Rattle.std.specs.Prelude.{◌≡◌, ◌<◌, ◌≤◌, ◌+◌, ◌*◌, ◌^◌, ℕ, bit_and, get_or, length, slice_index};
ghost use Rattle.std.specs.Simd.Lanes.{zip2};
ghost use Rattle.std.proofs.Common.{lit<};
ghost use Rattle.bit_slices.specs.Lanes.{bit_lane};
ghost use Rattle.bit_slices.specs.Layout.{AreKept, AreWordsExchanged, IsLaidOut};

use crate::word::TowerWord;
use crate::words::{join, split};
use field_base::Holds;
use std::simd::prelude::*;
use word_carryless::{WordVector, join_128, split_128};

/// A vector whose bits are lanes: `u64x2` of 128 bits, or `u64x4` of 256 bits, which is made for x86-64-v3. On x86-64-v2 the narrow ones are
/// faster.
pub trait Vector: WordVector {
    // How many times 128 bits it has.
    ghost units: { ℕ };

    /// How many bits it has.
    fn lanes() -> usize
        ensures { result ≡ 128 * units };

    /// The bits that both vectors have.
    fn product_of_bits(self, other: Self) -> Self
        ensures { Self.words result ≡ zip2 bit_and (Self.words self) (Self.words other) };

    /// The words with even numbers of both, by turns, and those with odd numbers.
    fn exchange_words(self, other: Self) -> (Self, Self)
        ensures { AreWordsExchanged (slice_index (Self.words self)) (slice_index (Self.words other)) (slice_index (Self.words result.0))
            (slice_index (Self.words result.1)) };

    /// The vector of the words from `start` on, and where they end.
    fn read<R: TowerWord, W: Holds<R>>(words: &[W], start: usize) -> (Self, usize)
        requires { start + units * R.COUNT ≤ length words.now }
        ensures read { (d : W) → IsLaidOut (2 ^ R.LEVEL) (units * R.COUNT) 1 (bit_lane (Self.words result.0))
            (λ n. W.number (get_or words.now (start + n) d)) }
        ensures end { result.1 ≡ start + units * R.COUNT };

    /// Writes the vector from word `start` on, and returns where it ends.
    fn write<R: TowerWord, W: Holds<R>>(self, words: &mut [W], start: usize) -> usize
        requires { start + units * R.COUNT ≤ length words.old }
        ensures written { (d : W) → IsLaidOut (2 ^ R.LEVEL) (units * R.COUNT) 1 (bit_lane (Self.words self))
            (λ n. W.number (get_or words.new (start + n) d)) }
        ensures kept { AreKept start (units * R.COUNT) words.old words.new }
        ensures end { result ≡ start + units * R.COUNT };

    ghost some_law: { 0 < units };
}

impl Vector for u64x2 {
    ghost units = { 1 };

    #[inline(always)]
    fn lanes() -> usize {
        128
    }

    #[inline(always)]
    fn product_of_bits(self, other: u64x2) -> u64x2 {
        self & other
    }

    #[inline(always)]
    fn exchange_words(self, other: u64x2) -> (u64x2, u64x2) {
        let a = self.to_array();
        let b = other.to_array();
        (
            u64x2::from_array([a[0], b[0]]),
            u64x2::from_array([a[1], b[1]]),
        )
    }

    #[inline(always)]
    fn read<R: TowerWord, W: Holds<R>>(words: &[W], start: usize) -> (u64x2, usize) {
        let (low, high) = split_128(join::<R, W>(words, start));
        (u64x2::from_array([low, high]), start + R::COUNT)
    }

    #[inline(always)]
    fn write<R: TowerWord, W: Holds<R>>(self, words: &mut [W], start: usize) -> usize {
        let a = self.to_array();
        split::<R, W>(words, start, join_128(a[0], a[1]));
        start + R::COUNT
    }

    ghost some_law = { lit< tt };
}

impl Vector for u64x4 {
    ghost units = { 2 };

    #[inline(always)]
    fn lanes() -> usize {
        256
    }

    #[inline(always)]
    fn product_of_bits(self, other: u64x4) -> u64x4 {
        self & other
    }

    #[inline(always)]
    fn exchange_words(self, other: u64x4) -> (u64x4, u64x4) {
        let a = self.to_array();
        let b = other.to_array();
        (
            u64x4::from_array([a[0], b[0], a[2], b[2]]),
            u64x4::from_array([a[1], b[1], a[3], b[3]]),
        )
    }

    #[inline(always)]
    fn read<R: TowerWord, W: Holds<R>>(words: &[W], start: usize) -> (u64x4, usize) {
        let middle = start + R::COUNT;
        let (a, b) = split_128(join::<R, W>(words, start));
        let (c, d) = split_128(join::<R, W>(words, middle));
        (u64x4::from_array([a, b, c, d]), middle + R::COUNT)
    }

    #[inline(always)]
    fn write<R: TowerWord, W: Holds<R>>(self, words: &mut [W], start: usize) -> usize {
        let middle = start + R::COUNT;
        let a = self.to_array();
        split::<R, W>(words, start, join_128(a[0], a[1]));
        split::<R, W>(words, middle, join_128(a[2], a[3]));
        middle + R::COUNT
    }

    ghost some_law = { lit< tt };
}
