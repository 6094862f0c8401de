// Rows word by word: sums, products, counts, and blocks of two rows interleaved.
ghost use Rattle.std.specs.Prelude.{◌≡◌, ◌<◌, ◌+◌, ◌-◌, ◌*◌, ◌/◌, ◌%◌, IsTrue, bit_and, bit_xor, count_ones};
ghost use Rattle.field_base.specs.Chunks.{chunk};
ghost use Rattle.packed_lanes.specs.Parts.{HasFirstBlocks, HasSecondBlocks, IsBlockSize, IsRowOf};

use crate::underlier::Underlier;
use crate::word::Word;

/// The exclusive or of two rows, bit by bit.
#[inline]
pub fn bits_xor<U: Underlier>(left: &U, right: &U) -> U
    requires left_whole { IsTrue (U.is_whole left.now) }
    requires right_whole { IsTrue (U.is_whole right.now) }
    ensures { IsRowOf U.number U.is_whole (bit_xor (U.number left.now) (U.number right.now)) result }
{
    left.zip(*right, |x, y| x ^ y)
}

/// The bits that are set in both rows.
#[inline]
pub fn bits_and<U: Underlier>(left: &U, right: &U) -> U
    requires left_whole { IsTrue (U.is_whole left.now) }
    requires right_whole { IsTrue (U.is_whole right.now) }
    ensures { IsRowOf U.number U.is_whole (bit_and (U.number left.now) (U.number right.now)) result }
{
    left.zip(*right, |x, y| x & y)
}

/// How many bits of the row are set.
#[inline]
pub fn count_bits<U: Underlier>(row: &U) -> u32
    requires { IsTrue (U.is_whole row.now) }
    ensures { result ≡ count_ones (U.number row.now) }
{
    let mut count = 0;
    for i in 0..U::WORD_COUNT {
        let word = row.word(i);
        count += word.count_ones();
    }
    count
}

// Word `i` of the first result of interleaving by blocks of `block` words: a word of an even block of the left row, or that
// of the right row one block before.
#[inline]
fn first_word<U: Underlier>(left: &U, right: &U, block: usize, i: usize) -> U::Word
    requires block { IsBlockSize U.WORD_COUNT block }
    requires inside { i < U.WORD_COUNT }
    ensures even { i / block % 2 ≡ 0 → U.Word.number result ≡ chunk U.Word.BITS i (U.number left.now) }
    ensures odd { i / block % 2 ≡ 1 → U.Word.number result ≡ chunk U.Word.BITS (i - block) (U.number right.now) }
{
    if i / block % 2 == 0 {
        left.word(i)
    } else {
        right.word(i - block)
    }
}

// Word `i` of the second result: the word of the left row one block after, or one of an odd block of the right row.
#[inline]
fn second_word<U: Underlier>(left: &U, right: &U, block: usize, i: usize) -> U::Word
    requires block { IsBlockSize U.WORD_COUNT block }
    requires inside { i < U.WORD_COUNT }
    ensures even { i / block % 2 ≡ 0 → U.Word.number result ≡ chunk U.Word.BITS (i + block) (U.number left.now) }
    ensures odd { i / block % 2 ≡ 1 → U.Word.number result ≡ chunk U.Word.BITS i (U.number right.now) }
{
    if i / block % 2 == 0 {
        left.word(i + block)
    } else {
        right.word(i)
    }
}

/// Interleaves two rows by blocks of `block` words, a power of two below the words of a row, and returns both results.
#[inline]
pub fn interleave_words<U: Underlier>(left: &U, right: &U, block: usize) -> (U, U)
    requires { IsBlockSize U.WORD_COUNT block }
    ensures first { HasFirstBlocks U.BITS (U.Word.BITS * block) (U.number left.now) (U.number right.now) (U.number result.0) }
    ensures second { HasSecondBlocks U.BITS (U.Word.BITS * block) (U.number left.now) (U.number right.now) (U.number result.1) }
    ensures first_whole { IsTrue (U.is_whole result.0) }
    ensures second_whole { IsTrue (U.is_whole result.1) }
{
    let mut first = U::ZERO;
    let mut second = U::ZERO;
    for i in 0..U::WORD_COUNT {
        first.set_word(i, first_word(left, right, block, i));
        second.set_word(i, second_word(left, right, block, i));
    }
    (first, second)
}
