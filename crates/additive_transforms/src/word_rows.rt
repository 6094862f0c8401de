// Butterflies of rows of words by a scalar of 8, 16 or 32 bits, in vectors of their bytes (S. Gao and T. Mateer, Additive fast Fourier
// transforms over finite fields, 2010). A word is a row of elements of as many bits as the scalar has, so that no word is taken apart.
ghost use Rattle.std.specs.Prelude.{◌≡◌, ◌⊎◌, List, ◌++◌, ◌+◌, ◌*◌, ◌^◌, ◌<◌, ◌≤◌, ℕ, length, map, slice_index};
ghost use Rattle.additive_transforms.specs.Chunks.{TakesChunks};
ghost use Rattle.additive_transforms.specs.Rows.{level_of};
ghost use Rattle.additive_transforms.specs.Units.{AreChunks};
ghost use Rattle.additive_transforms.specs.Words.{TakesWordPairs, TakesWords};

use crate::chunks::{Scales, pair_of_vectors, two_pairs_of_vectors};
use crate::level_pairs::run_pairs;
use crate::multiples::ByteMultiples;
use crate::products::ChunkScalar;
use crate::word_bytes::WordBytes;
use crate::word_planes::WordPlanes;
use field_base::{Stored, Unsigned};
use std::marker::PhantomData;
use std::simd::prelude::*;
use word_tables::ByteVector;
use word_tower::Level;

/// Words of a slice in vectors of their bytes, as many as are computed at once.
pub(crate) trait WordBlock<R: Stored, W: WordBytes<R>>: Copy {
    // Its bytes, and how many times sixteen they are.
    ghost bytes: { Self → List ℕ };

    ghost sixteens: { ℕ };

    /// How many words it has.
    fn words() -> usize
        ensures bytes { result * 2 ^ W.size ≡ 16 * sixteens }
        ensures some { 0 < result };

    /// The words from `start` on.
    fn read_words(words: &[W], start: usize, count: usize) -> Self
        requires count { count * 2 ^ W.size ≡ 16 * sixteens }
        requires inside { start + count ≤ length words.now }
        ensures { AreChunks W.size start count (bytes result) (map W.Holds.number words.now) };

    /// Writes it over those words.
    fn write_words(self, words: &mut [W], start: usize, count: usize)
        requires count { count * 2 ^ W.size ≡ 16 * sixteens }
        requires inside { start + count ≤ length words.old }
        ensures length { length words.new ≡ length words.old }
        ensures words { AreChunks W.size start count (bytes self) (map W.Holds.number words.new) }
        ensures kept { (k : ℕ) → (k < start) ⊎ (start + count ≤ k)
            → slice_index (map W.Holds.number words.new) k ≡ slice_index (map W.Holds.number words.old) k };

    /// The butterfly of each word of two.
    fn butterflies<M: Scales, L>(scalar: &ChunkScalar<M, L>, lo: Self, hi: Self) -> (Self, Self)
        ensures { (s : ℕ) → M.are_multiples scalar.now.multiples s → s < 2 ^ 2 ^ level_of M.depth → M.depth ≤ W.size
            → TakesChunks scalar.now.inverse W.size s (bytes lo) (bytes hi) (bytes result.0) (bytes result.1) };
}

impl<R: Stored, W: WordBytes<R>> WordBlock<R, W> for u8x16 {
    ghost bytes = { λ lanes. lanes };

    ghost sixteens = { 1 };

    #[inline(always)]
    fn words() -> usize {
        W::in_sixteen()
    }

    #[inline(always)]
    fn read_words(words: &[W], start: usize, count: usize) -> u8x16 {
        let bytes = <u8x16 as WordPlanes<R, W, ByteMultiples>>::gather(words, start, count);
        bytes.holds_bytes();
        bytes
    }

    #[inline(always)]
    fn write_words(self, words: &mut [W], start: usize, count: usize) {
        self.holds_bytes();
        <u8x16 as WordPlanes<R, W, ByteMultiples>>::scatter(self, words, start, count);
    }

    #[inline(always)]
    fn butterflies<M: Scales, L>(scalar: &ChunkScalar<M, L>, lo: Self, hi: Self) -> (Self, Self) {
        pair_of_vectors(&scalar.multiples, lo, hi, scalar.inverse)
    }
}

/// Sixty-four bytes of words.
#[derive(Clone, Copy)]
pub(crate) struct TwoVectors {
    first: u8x32,
    second: u8x32,
}

impl<R: Stored, W: WordBytes<R>> WordBlock<R, W> for TwoVectors {
    ghost bytes = { λ two. two.first ++ two.second };

    ghost sixteens = { 4 };

    #[inline(always)]
    fn words() -> usize {
        4 * W::in_sixteen()
    }

    #[inline(always)]
    fn read_words(words: &[W], start: usize, count: usize) -> TwoVectors {
        let half = count / 2;
        let first = <u8x32 as WordPlanes<R, W, ByteMultiples>>::gather(words, start, half);
        let second = <u8x32 as WordPlanes<R, W, ByteMultiples>>::gather(words, start + half, half);
        first.holds_bytes();
        second.holds_bytes();
        TwoVectors { first, second }
    }

    #[inline(always)]
    fn write_words(self, words: &mut [W], start: usize, count: usize) {
        let half = count / 2;
        let (first, second) = (self.first, self.second);
        first.holds_bytes();
        second.holds_bytes();
        <u8x32 as WordPlanes<R, W, ByteMultiples>>::scatter(first, words, start, half);
        <u8x32 as WordPlanes<R, W, ByteMultiples>>::scatter(second, words, start + half, half);
    }

    #[inline(always)]
    fn butterflies<M: Scales, L>(scalar: &ChunkScalar<M, L>, lo: Self, hi: Self) -> (Self, Self) {
        let (low, high) = two_pairs_of_vectors(
            &scalar.multiples,
            (lo.first, lo.second),
            (hi.first, hi.second),
            scalar.inverse,
        );
        lo.first.holds_bytes();
        hi.first.holds_bytes();
        low.0.holds_bytes();
        high.0.holds_bytes();
        (
            TwoVectors {
                first: low.0,
                second: low.1,
            },
            TwoVectors {
                first: high.0,
                second: high.1,
            },
        )
    }
}

/// The butterflies of two rows by the multiples of a narrow scalar, or, where `inverse` is true, the inverse ones: in blocks of two vectors,
/// then in vectors of sixteen bytes, then word by word.
#[inline(always)]
pub(crate) fn run_words<R: Unsigned, L: Level<R>, W: WordBytes<R>, M: Scales + Copy>(
    lo: &mut [W],
    hi: &mut [W],
    multiples: M,
    inverse: bool,
)
    requires { length lo.old ≡ length hi.old }
    ensures lower { length lo.new ≡ length lo.old }
    ensures upper { length hi.new ≡ length hi.old }
    ensures values { (s : ℕ)
        → M.are_multiples multiples s × (s < 2 ^ 2 ^ level_of M.depth) × (level_of M.depth ≤ L.LEVEL)
        → TakesWords W.Holds.number L.LEVEL inverse s lo.old hi.old lo.new hi.new }
{
    let scalar = ChunkScalar {
        multiples,
        inverse,
        level: PhantomData::<L>,
    };
    let wide = run_vectors::<R, L, W, M, TwoVectors>(lo, hi, 0, &scalar);
    let narrow = run_vectors::<R, L, W, M, u8x16>(lo, hi, wide, &scalar);
    run_pairs(lo, hi, narrow, &scalar);
}

// The butterflies from the word `first` on, block by block, as far as there are whole blocks; the word behind them is returned.
#[inline(always)]
fn run_vectors<R: Stored, L, W: WordBytes<R>, M: Scales, B: WordBlock<R, W>>(
    lo: &mut [W],
    hi: &mut [W],
    first: usize,
    scalar: &ChunkScalar<M, L>,
) -> usize
    requires same { length lo.old ≡ length hi.old }
    requires inside { first ≤ length lo.old }
    ensures lower { length lo.new ≡ length lo.old }
    ensures upper { length hi.new ≡ length hi.old }
    ensures inside { result ≤ length lo.old }
    ensures values { (s : ℕ) → M.are_multiples scalar.now.multiples s → s < 2 ^ 2 ^ level_of M.depth
        → (k : ℕ) → level_of M.depth ≤ k → k ≤ level_of W.size
        → TakesWordPairs W.Holds.number k scalar.now.inverse s first result lo.old hi.old lo.new hi.new }
{
    let count = B::words();
    let blocks = (lo.len() - first) / count;
    for block in 0..blocks {
        run_at::<R, L, W, M, B>(lo, hi, first + count * block, count, scalar);
    }
    first + count * blocks
}

// The butterflies of the words of one block.
#[inline(always)]
fn run_at<R: Stored, L, W: WordBytes<R>, M: Scales, B: WordBlock<R, W>>(
    lo: &mut [W],
    hi: &mut [W],
    start: usize,
    count: usize,
    scalar: &ChunkScalar<M, L>,
)
    requires count { count * 2 ^ W.size ≡ 16 * B.sixteens }
    requires low_inside { start + count ≤ length lo.old }
    requires high_inside { start + count ≤ length hi.old }
    ensures lower { length lo.new ≡ length lo.old }
    ensures upper { length hi.new ≡ length hi.old }
    ensures values { (s : ℕ) → M.are_multiples scalar.now.multiples s → s < 2 ^ 2 ^ level_of M.depth
        → (k : ℕ) → level_of M.depth ≤ k → k ≤ level_of W.size
        → TakesWordPairs W.Holds.number k scalar.now.inverse s start (start + count) lo.old hi.old lo.new hi.new }
{
    let lower = B::read_words(lo, start, count);
    let upper = B::read_words(hi, start, count);
    let (low, high) = B::butterflies(scalar, lower, upper);
    low.write_words(lo, start, count);
    high.write_words(hi, start, count);
}
