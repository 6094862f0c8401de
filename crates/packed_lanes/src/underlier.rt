// What packed bits are stored in: one word, or a block of words.
ghost use Rattle.std.specs.Prelude.{◌≡◌, ◌↔◌, ◌<◌, ◌-◌, ◌*◌, ◌^◌, ℕ, Bool, IsTrue, map};
ghost use Rattle.std.specs.Array.{index_steps};
ghost use Rattle.std.specs.Iterator.{CallableAtEachTurn};
ghost use Rattle.field_base.specs.Chunks.{chunk, chunks};
ghost use Rattle.packed_lanes.specs.Parts.{HasFirstBlocks, HasSecondBlocks, IsBlockSize, IsDrawn, IsFilled, IsWithPart, IsZipped};

use crate::sealed::Sealed;
use crate::word::Word;
use rand::distr::SampleStandard;
use rand_core::Rng;
use std::fmt::Debug;
use std::hash::Hash;

/// A row of bits that is stored in words: a word itself, or one of the blocks `M128`, `M256` and `M512`. It stands for
/// one number, of which the words are the digits, the lowest first: bit j of word i is bit `W * i + j` of the number, for
/// words of `W` bits.
pub trait Underlier: Sealed + Copy + Debug + Default + PartialEq + Eq + Hash {
    /// The words that the row is stored in.
    type Word: Word;

    // The number of a row, and whether the row has `WORD_COUNT` words, each below 2^W. There are 2^`log_words` of them.
    ghost number: { Self → ℕ };

    ghost is_whole: { Self → Bool };

    ghost log_words: { ℕ };

    /// How many words a row has.
    const WORD_COUNT: usize;

    ghost WORD_COUNT: { ℕ };

    /// How many bits a row has.
    const BITS: usize;

    ghost BITS: { ℕ };

    /// The row whose bits are all 0.
    const ZERO: Self;

    ghost ZERO: { Self };

    /// The row whose bits are all 1.
    const ONES: Self;

    ghost ONES: { Self };

    ghost zero_whole: { IsTrue (is_whole ZERO) };

    ghost zero_number: { number ZERO ≡ 0 };

    ghost ones_whole: { IsTrue (is_whole ONES) };

    ghost ones_number: { number ONES ≡ 2 ^ BITS - 1 };

    ghost range_law: { (x : Self) → IsTrue (is_whole x) → number x < 2 ^ BITS };

    ghost same_law: { (x y : Self) → IsTrue (is_whole x) → IsTrue (is_whole y) → number x ≡ number y → x ≡ y };

    /// The words, the lowest first.
    fn words(&self) -> &[Self::Word]
        ensures { map Self.Word.number result.now ≡ chunks Self.Word.BITS WORD_COUNT (number self.now) };

    /// Word `i`, counted from the lowest. Requires `i` below `WORD_COUNT`.
    fn word(&self, i: usize) -> Self::Word
        requires { i < WORD_COUNT }
        ensures { Self.Word.number result ≡ chunk Self.Word.BITS i (number self.now) };

    /// Writes word `i`, counted from the lowest, and keeps the others. Requires `i` below `WORD_COUNT`.
    fn set_word(&mut self, i: usize, word: Self::Word)
        requires { i < WORD_COUNT }
        ensures replaced { IsWithPart Self.Word.BITS WORD_COUNT (number self.old) i (Self.Word.number word) (number self.new) }
        ensures whole { IsTrue (is_whole self.new) };

    /// Returns the row itself: each of its words is known to be a number of as many bits as a word has.
    fn checked(&self) -> Self
        ensures same { result ≡ self.now }
        ensures whole { IsTrue (is_whole self.now) };

    /// Interleaves the row with another one by blocks of `block` bits, a power of two below the bits of a word, and returns
    /// both results.
    fn interleave_in_words(&self, other: &Self, block: u32) -> (Self, Self)
        requires { IsBlockSize Self.Word.BITS block }
        ensures first { HasFirstBlocks BITS block (number self.now) (number other.now) (number result.0) }
        ensures second { HasSecondBlocks BITS block (number self.now) (number other.now) (number result.1) }
        ensures first_whole { IsTrue (is_whole result.0) }
        ensures second_whole { IsTrue (is_whole result.1) };

    /// The row whose word i is `f(i)`: `f` is called once for each i below `WORD_COUNT`, from 0 up. It needs to take these indexes
    /// alone, in this order.
    #[tactic(auto, using(field_base::proofs::Calls::may_call))]
    final fn from_words_fn<F: FnMut(usize) -> Self::Word>(mut f: F) -> Self
        requires { CallableAtEachTurn (index_steps WORD_COUNT) (λ p i q. (x : Self.Word) × F.step p i x q) F.pre 0 f }
        ensures filled { (last : F) × IsFilled F.step Self.Word.number Self.Word.BITS WORD_COUNT (number result) f last }
        ensures whole { IsTrue (is_whole result) }
    {
        let mut row = Self::ZERO;
        for i in 0..Self::WORD_COUNT {
            row.set_word(i, f(i));
        }
        row
    }

    /// The row whose word i is `f` of word i of this row and word i of the other.
    final fn zip<F: Fn(Self::Word, Self::Word) -> Self::Word>(self, other: Self, f: F) -> Self
        requires { F.IsAlwaysCallable f }
        ensures each { IsZipped Self.Word.BITS Self.Word.number (F.post f) WORD_COUNT (number self) (number other) (number result) }
        ensures whole { IsTrue (is_whole result) }
    {
        let mut row = Self::ZERO;
        for i in 0..Self::WORD_COUNT {
            row.set_word(i, f(self.word(i), other.word(i)));
        }
        row
    }

    /// A random row: its words are drawn one by one, word 0 first.
    final fn random<R: Rng>(rng: &mut R) -> Self
        ensures drawn { IsDrawn Self.Word.draws Self.Word.number Self.Word.BITS WORD_COUNT (number result)
            (R.stream rng.old) (R.stream rng.new) }
        ensures whole { IsTrue (is_whole result) }
    {
        let mut row = Self::ZERO;
        for i in 0..Self::WORD_COUNT {
            let word = Self::Word::sample_standard(rng);
            row.set_word(i, word);
        }
        row
    }

    ghost words_law: { WORD_COUNT ≡ 2 ^ log_words };

    ghost bits_law: { BITS ≡ Self.Word.BITS * WORD_COUNT };

    ghost narrow_law: { BITS < 2 ^ 32 };

    ghost eq_law: { (x y : Self) → IsTrue (Self.PartialEq.eq x y) ↔ (x ≡ y) };

    ghost default_law: { (r : Self) → Self.is_default r → r ≡ ZERO };
}
