// Blocks of words.
ghost use Rattle.std.specs.Prelude.{◌≡◌, ◌<◌, ◌*◌, ◌^◌, ℕ, IsTrue, refl, replicate};
ghost use Rattle.std.proofs.Common.{lit<, rules, ◌-◌};
ghost use Rattle.field_base.specs.Chunks.{joined};
ghost use Rattle.packed_lanes.specs.Parts.{HasFirstBlocks, HasSecondBlocks, IsBlockSize, IsEachWord, is_whole};
ghost use Rattle.packed_lanes.specs.lemmas.Joined.{joined-ones, joined-zeros, same_from_joined, whole-replicate, whole_joined-lt};

use crate::bits::even_word;
use crate::sealed::Sealed;
use crate::underlier::Underlier;
use std::fmt;
use std::simd::Simd;

/// A block of `N` words of 64 bits, the lowest first. Its names are `M128`, `M256` and `M512`.
#[derive(Clone, Copy, PartialEq, Eq, Hash)]
pub struct Block<const N: usize> {
    words: [u64; N],
}

/// 128 bits: two words.
pub type M128 = Block<2>;

/// 256 bits: four words.
pub type M256 = Block<4>;

/// 512 bits: eight words.
pub type M512 = Block<8>;

impl<const N: usize> Block<N> {
    /// The block of these words, the lowest first.
    pub fn from_words(words: [u64; N]) -> Block<N>
        ensures { result.words ≡ words.entry }
    {
        Block { words }
    }

    /// The words of the block, the lowest first.
    pub fn to_words(self) -> [u64; N]
        ensures { result ≡ self.entry.words }
    {
        self.words
    }
}

impl<const N: usize> fmt::Debug for Block<N> {
    // Writes the name and the words, as in `M128([1, 2])`.
    fn fmt<W: fmt::Write>(&self, f: &mut fmt::Formatter<W>) -> fmt::Result {
        let name = match N {
            2 => "M128",
            4 => "M256",
            8 => "M512",
            _ => "Block",
        };
        f.debug_tuple(name).field(&self.words).finish()
    }
}

impl<const N: usize> Default for Block<N> {
    ghost is_default = { λ x. x.words ≡ replicate N 0 };

    fn default() -> Block<N> {
        Block { words: [0; N] }
    }
}

impl<const N: usize> Sealed for Block<N> {}

/// Has a [`Length`] for each number of words that a block may have.
pub struct Lengths;

/// States that a row may have `N` words: a power of two, of fewer than 2^32 bits in all.
pub trait Length<const N: usize> {
    ghost log: { ℕ };

    ghost count_law: { N ≡ 2 ^ log };

    ghost narrow_law: { 64 * N < 2 ^ 32 };
}

impl Length<2> for Lengths {
    ghost log = { 1 };

    ghost count_law = { refl };

    ghost narrow_law = { lit< tt };
}

impl Length<4> for Lengths {
    ghost log = { 2 };

    ghost count_law = { refl };

    ghost narrow_law = { lit< tt };
}

impl Length<8> for Lengths {
    ghost log = { 3 };

    ghost count_law = { refl };

    ghost narrow_law = { lit< tt };
}

// Interleaves each word of one block with that of the other, all words at once in the lanes of a vector, and returns both
// results.
#[inline]
fn interleave_lanes<const N: usize>(
    left: &Block<N>,
    right: &Block<N>,
    block: u32,
) -> (Block<N>, Block<N>)
    requires { IsBlockSize 64 block }
    ensures first { IsEachWord (HasFirstBlocks 64 block) N left.now.words right.now.words result.0.words }
    ensures second { IsEachWord (HasSecondBlocks 64 block) N left.now.words right.now.words result.1.words }
{
    let even = Simd::<u64, N>::splat(even_word::<u64>(block));
    let places = Simd::<u64, N>::splat(block as u64);
    let upper = Simd::<u64, N>::from_array(left.words);
    let lower = Simd::<u64, N>::from_array(right.words);
    let change = ((upper >> places) ^ lower) & even;
    let first = upper ^ (change << places);
    let second = lower ^ change;
    (
        Block {
            words: first.to_array(),
        },
        Block {
            words: second.to_array(),
        },
    )
}

impl<const N: usize> Underlier for Block<N>
where
    Lengths: Length<N>,
{
    type Word = u64;

    ghost number = { λ x. joined 64 x.words };

    ghost is_whole = { λ x. is_whole 64 N x.words };

    ghost log_words = { bound-1.log };

    const WORD_COUNT: usize = N;

    ghost WORD_COUNT = { N };

    const BITS: usize = 64 * N;

    ghost BITS = { 64 * N };

    const ZERO: Block<N> = Block { words: [0; N] };

    ghost ZERO = { record { words = replicate N 0 } };

    const ONES: Block<N> = Block {
        words: [u64::MAX; N],
    };

    ghost ONES = { record { words = replicate N (2 ^ 64 - 1) } };

    fn words(&self) -> &[u64] {
        let _row = self.checked();
        &self.words
    }

    fn word(&self, i: usize) -> u64 {
        let _row = self.checked();
        self.words[i]
    }

    fn set_word(&mut self, i: usize, word: u64) {
        let _row = self.checked();
        self.words[i] = word;
    }

    fn checked(&self) -> Block<N> {
        // Nothing is computed: that each lane is a number of 64 bits is known of the result of an operation on lanes.
        let lanes = Simd::<u64, N>::from_array(self.words);
        let _same = (lanes & lanes).to_array();
        *self
    }

    fn interleave_in_words(&self, other: &Block<N>, block: u32) -> (Block<N>, Block<N>) {
        let _left = self.checked();
        let _right = other.checked();
        let (first, second) = interleave_lanes(self, other, block);
        let _first = first.checked();
        let _second = second.checked();
        (first, second)
    }

    ghost words_law = { bound-1.count_law };

    ghost bits_law = { refl };

    ghost narrow_law = { bound-1.narrow_law };

    ghost zero_whole = { whole-replicate 64 N 0 (lit< tt) };

    ghost zero_number = { joined-zeros 64 N };

    ghost ones_whole = { whole-replicate 64 N (2 ^ 64 - 1) (lit< tt) };

    ghost ones_number = { joined-ones 64 N };

    ghost range_law = { λ x whole. whole_joined-lt 64 N x.words whole };

    ghost same_law = { λ x y left right same i. record { words = same_from_joined 64 N x.words y.words left right same i } };

    ghost eq_law = { Prim.search rules };

    ghost default_law = { λ r is i. record { words = is i } };
}
