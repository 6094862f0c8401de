// Blocks of lanes interleaved, and square matrices of bits transposed.
ghost use Rattle.std.specs.Prelude.{◌≡◌, ◌≤◌, ◌<◌, ◌+◌, ◌*◌, ◌/◌, ◌^◌, ℕ, length, map};
ghost use Rattle.packed_lanes.specs.Parts.{HasFirstBlocks, HasSecondBlocks, IsBlockSize};
ghost use Rattle.bits_packed.specs.Lanes.{AreInterleavedLanes, AreTransposed};
ghost use Rattle.bits_packed.specs.Rounds.{AreRounds, IsPairInterleaved, PassGoesByGroup, PassGoesOn, RoundsGoOn, first_row};

use crate::packed::{PackedGf2, value};
use packed_lanes::{Underlier, Word, interleave_words};

// Interleaves by blocks below the width, and returns both results.
#[inline]
fn interleave_blocks<U: Underlier>(
    left: &PackedGf2<U>,
    right: &PackedGf2<U>,
    block: usize,
) -> (PackedGf2<U>, PackedGf2<U>)
    requires { IsBlockSize U.BITS block }
    ensures first { HasFirstBlocks U.BITS block (U.number left.now.bits) (U.number right.now.bits) (U.number result.0.bits) }
    ensures second { HasSecondBlocks U.BITS block (U.number left.now.bits) (U.number right.now.bits) (U.number result.1.bits) }
{
    let word_bits = <U::Word as Word>::BITS as usize;
    if block < word_bits {
        let (first, second) = left.bits.interleave_in_words(&right.bits, block as u32);
        (PackedGf2 { bits: first }, PackedGf2 { bits: second })
    } else {
        let (first, second) = interleave_words(&left.bits, &right.bits, block / word_bits);
        (PackedGf2 { bits: first }, PackedGf2 { bits: second })
    }
}

// Interleaves row `i` with row `i + block`, by blocks of `block` lanes.
#[inline(always)]
fn interleave_pair<U: Underlier>(rows: &mut [PackedGf2<U>], block: usize, i: usize)
    requires block { IsBlockSize U.BITS block }
    requires square { length rows.old ≡ U.BITS }
    requires inside { i + block < U.BITS }
    ensures { IsPairInterleaved U.BITS block i (map (λ x. U.number x.bits) rows.old) (map (λ x. U.number x.bits) rows.new) }
{
    let other = i + block;
    let (first, second) = interleave_blocks(&rows[i], &rows[other], block);
    rows[i] = first;
    rows[other] = second;
}

// The index of row `k` of the eight rows `i`, `i + block`, .., `i + 7 * block`.
#[inline(always)]
fn row_of_eight<U: Underlier>(i: usize, block: usize, k: usize) -> usize
    requires inside { i + 7 * block < U.BITS }
    requires eight { k < 8 }
    ensures { result ≡ i + k * block }
{
    i + k * block
}

// Does nothing. Its contract says that the second and the third of three rounds have block sizes, too, as the eight calls of
// `interleave_pair` in those rounds require.
#[inline(always)]
fn lengths_of_eight<U: Underlier>(i: usize, block: usize)
    requires block { IsBlockSize U.BITS block }
    requires inside { i + 7 * block < U.BITS }
    ensures twofold { IsBlockSize U.BITS (2 * block) }
    ensures fourfold { IsBlockSize U.BITS (4 * block) }
{}

// Three rounds, by blocks of `block`, `2 * block` and `4 * block` lanes, on the rows `i`, `i + block`, .., `i + 7 * block`, which
// these rounds combine with no other row. The compiler keeps the eight rows in registers from pair to pair.
#[inline(always)]
fn interleave_eight<U: Underlier>(rows: &mut [PackedGf2<U>], block: usize, i: usize)
    requires block { IsBlockSize U.BITS block }
    requires square { length rows.old ≡ U.BITS }
    requires first { first_row block (8 * block) i ≡ i }
    requires inside { i + 7 * block < U.BITS }
    ensures { PassGoesOn U.BITS block (8 * block) i (i + 1) (map (λ x. U.number x.bits) rows.old) (map (λ x. U.number x.bits) rows.new) }
{
    lengths_of_eight::<U>(i, block);
    let one = row_of_eight::<U>(i, block, 1);
    let two = row_of_eight::<U>(i, block, 2);
    let three = row_of_eight::<U>(i, block, 3);
    let four = row_of_eight::<U>(i, block, 4);
    let five = row_of_eight::<U>(i, block, 5);
    let six = row_of_eight::<U>(i, block, 6);
    interleave_pair(rows, block, i);
    interleave_pair(rows, block, two);
    interleave_pair(rows, block, four);
    interleave_pair(rows, block, six);
    interleave_pair(rows, 2 * block, i);
    interleave_pair(rows, 2 * block, one);
    interleave_pair(rows, 2 * block, four);
    interleave_pair(rows, 2 * block, five);
    interleave_pair(rows, 4 * block, i);
    interleave_pair(rows, 4 * block, one);
    interleave_pair(rows, 4 * block, two);
    interleave_pair(rows, 4 * block, three);
}

// The rounds on row `i` and the rows that they combine it with, `count` in all: one round by blocks of `block` lanes combines two
// rows, and three rounds combine eight.
#[inline(always)]
fn interleave_rows<U: Underlier>(rows: &mut [PackedGf2<U>], block: usize, count: usize, i: usize)
    requires rounds { AreRounds U.BITS count block (length rows.old) }
    requires first { first_row block (count * block) i ≡ i }
    requires inside { i + count * block < U.BITS + block }
    ensures { PassGoesOn U.BITS block (count * block) i (i + 1) (map (λ x. U.number x.bits) rows.old) (map (λ x. U.number x.bits) rows.new) }
{
    if count == 2 {
        interleave_pair(rows, block, i)
    } else {
        interleave_eight(rows, block, i)
    }
}

// The rounds on the rows of group number `group`, of `count * block` rows each.
#[inline(always)]
fn interleave_group<U: Underlier>(
    rows: &mut [PackedGf2<U>],
    block: usize,
    count: usize,
    group: usize,
)
    requires rounds { AreRounds U.BITS count block (length rows.old) }
    requires inside { group < U.BITS / (count * block) }
    ensures { PassGoesByGroup U.BITS block (count * block) group (map (λ x. U.number x.bits) rows.old) (map (λ x. U.number x.bits) rows.new) }
{
    let start = group * (count * block);
    for i in start..start + block {
        interleave_rows(rows, block, count, i);
    }
}

// The rounds of a transposition that combine `count` rows: one round by blocks of `block` lanes, in which the odd blocks of row r
// change places with the even blocks of row `r + block`, for each row r of an even block of rows; or three, by blocks of `block`,
// `2 * block` and `4 * block` lanes.
#[inline(always)]
fn rounds<U: Underlier>(rows: &mut [PackedGf2<U>], block: usize, count: usize)
    requires { AreRounds U.BITS count block (length rows.old) }
    ensures { RoundsGoOn U.BITS block (count * block) (map (λ x. U.number x.bits) rows.old) (map (λ x. U.number x.bits) rows.new) }
{
    for group in 0..U::BITS / (count * block) {
        interleave_group(rows, block, count, group);
    }
}

// `rounds`, with each block size that a transposition gives it as a literal: so shifts and masks are constants in the machine
// code.
#[inline(always)]
fn rounds_of_constant<U: Underlier>(rows: &mut [PackedGf2<U>], block: usize, count: usize)
    requires { AreRounds U.BITS count block (length rows.old) }
    ensures { RoundsGoOn U.BITS block (count * block) (map (λ x. U.number x.bits) rows.old) (map (λ x. U.number x.bits) rows.new) }
{
    match block {
        1 => rounds(rows, 1, count),
        8 => rounds(rows, 8, count),
        16 => rounds(rows, 16, count),
        64 => rounds(rows, 64, count),
        128 => rounds(rows, 128, count),
        _ => rounds(rows, block, count),
    }
}

impl<U: Underlier> PackedGf2<U> {
    /// Interleaves by blocks of `block_len` lanes: the first result has the even blocks of both operands, left before
    /// right, and the second the odd ones. With `block_len` equal to `WIDTH` it returns both operands. Requires a power of two
    /// up to `WIDTH`.
    #[inline]
    pub fn interleave(&self, other: PackedGf2<U>, block_len: usize) -> (PackedGf2<U>, PackedGf2<U>)
        requires power { (k : ℕ) × (block_len ≡ 2 ^ k) }
        requires within { block_len ≤ U.BITS }
        ensures lanes { AreInterleavedLanes U.BITS block_len (U.number self.now.bits) (U.number other.bits)
            (U.number result.0.bits) (U.number result.1.bits) }
        ensures whole { block_len ≡ U.BITS → (result.0.bits ≡ self.now.bits) × (result.1.bits ≡ other.bits) }
    {
        if block_len == U::BITS {
            return (value(self), other);
        }
        interleave_blocks(self, &other, block_len)
    }

    /// Transposes the square matrix with these rows: lane j of new row i is lane i of old row j. Requires `WIDTH` rows. Round k
    /// interleaves pairs of rows by blocks of 2^k lanes; three rounds are done at once, on eight rows at a time, while three are
    /// left.
    pub fn transpose(rows: &mut [PackedGf2<U>])
        requires { length rows.old ≡ U.BITS }
        ensures { AreTransposed U.BITS (map (λ x. U.number x.bits) rows.old) (map (λ x. U.number x.bits) rows.new) }
    {
        let mut block = 1;
        while block <= U::BITS / 8 {
            rounds_of_constant(rows, block, 8);
            block *= 8;
        }
        while block < U::BITS {
            rounds_of_constant(rows, block, 2);
            block *= 2;
        }
    }
}
