// Runs of bits of a word, and blocks of bits of two words.
ghost use Rattle.std.specs.Prelude.{◌≡◌, ◌<◌, ◌≤◌, ◌+◌, ◌-◌, ◌*◌, ◌/◌, ◌%◌, ◌^◌, ℕ, bit_and, bit_xor};
ghost use Rattle.packed_lanes.specs.Parts.{HasEvenBlocks, HasFirstBlocks, HasSecondBlocks, IsBlockSize, IsWithField, difference};

use crate::word::Word;

// The word whose lowest `count` bits are set.
#[inline]
fn low_ones<W: Word>(count: u32) -> W
    requires some { 0 < count }
    requires fits { count ≤ W.BITS }
    ensures { W.number result ≡ 2 ^ count - 1 }
{
    W::ONES >> (W::BITS - count)
}

/// Bits `start` to `start + count - 1` of the word, as the lowest bits of a word. Requires a `count` of at least 1, and that
/// the word has these bits.
#[inline]
pub fn field<W: Word>(word: W, start: u32, count: u32) -> W
    requires some { 0 < count }
    requires fits { start + count ≤ W.BITS }
    ensures { W.number result ≡ W.number word / 2 ^ start % 2 ^ count }
{
    (word >> start) & low_ones::<W>(count)
}

/// The word with its bits `start` to `start + count - 1` replaced by the lowest bits of `value`. Requires a `count` of at
/// least 1, and that the word has these bits.
#[inline]
pub fn with_field<W: Word>(word: W, start: u32, count: u32, value: W) -> W
    requires some { 0 < count }
    requires fits { start + count ≤ W.BITS }
    ensures { IsWithField W.BITS start count (W.number word) (W.number value) (W.number result) }
{
    let change = ((word >> start) ^ value) & low_ones::<W>(count);
    word ^ (change << start)
}

// The bits of the blocks 0, 2, 4, .. of `block` bits each.
#[inline]
fn even_blocks(block: u32) -> u64
    requires { IsBlockSize 64 block }
    ensures { HasEvenBlocks 64 block result }
{
    match block {
        1 => 0x5555_5555_5555_5555,
        2 => 0x3333_3333_3333_3333,
        4 => 0x0f0f_0f0f_0f0f_0f0f,
        8 => 0x00ff_00ff_00ff_00ff,
        16 => 0x0000_ffff_0000_ffff,
        _ => 0x0000_0000_ffff_ffff,
    }
}

/// The word whose set bits are those of the blocks 0, 2, 4, .. of `block` bits each. Requires a power of two below the bits
/// of a word.
#[inline]
pub fn even_word<W: Word>(block: u32) -> W
    requires { IsBlockSize W.BITS block }
    ensures some { 0 < block }
    ensures even { HasEvenBlocks W.BITS block (W.number result) }
{
    W::from_u64(even_blocks(block))
}

// Where the odd blocks of the left word differ from the even blocks of the right one, at the places of the even blocks.
#[inline]
fn block_difference<W: Word>(left: W, right: W, block: u32, even: W) -> W
    requires { block < W.BITS }
    ensures { W.number result ≡ difference block (W.number even) (W.number left) (W.number right) }
{
    ((left >> block) ^ right) & even
}

/// The left word with its odd blocks of `block` bits replaced by the even blocks of the right one. `even` has the bits of
/// the even blocks. Requires a `block` below the bits of a word.
#[inline]
pub fn join_even_blocks<W: Word>(left: W, right: W, block: u32, even: W) -> W
    requires some { 0 < block }
    requires less { block < W.BITS }
    requires even { HasEvenBlocks W.BITS block (W.number even) }
    ensures { HasFirstBlocks W.BITS block (W.number left) (W.number right) (W.number result) }
{
    left ^ (block_difference(left, right, block, even) << block)
}

/// The right word with its even blocks of `block` bits replaced by the odd blocks of the left one. `even` has the bits of
/// the even blocks. Requires a `block` below the bits of a word.
#[inline]
pub fn join_odd_blocks<W: Word>(left: W, right: W, block: u32, even: W) -> W
    requires less { block < W.BITS }
    requires even { HasEvenBlocks W.BITS block (W.number even) }
    ensures { HasSecondBlocks W.BITS block (W.number left) (W.number right) (W.number result) }
{
    right ^ block_difference(left, right, block, even)
}

/// Interleaves two words by blocks of `block` bits, a power of two below the bits of a word, and returns both results.
#[inline]
pub fn interleave_word<W: Word>(left: W, right: W, block: u32) -> (W, W)
    requires { IsBlockSize W.BITS block }
    ensures first { HasFirstBlocks W.BITS block (W.number left) (W.number right) (W.number result.0) }
    ensures second { HasSecondBlocks W.BITS block (W.number left) (W.number right) (W.number result.1) }
{
    let even = even_word::<W>(block);
    (
        join_even_blocks(left, right, block, even),
        join_odd_blocks(left, right, block, even),
    )
}
