// The carryless square of a word is its bits with a zero between each two: the products of two bits at different places
// occur twice and cancel.
ghost use Rattle.std.specs.Prelude.{◌≡◌, ◌%◌, ◌*◌, ◌+◌, ◌^◌, ◌<◌, bit_and, bit_xor};
ghost use Rattle.field_base.specs.Carryless.{carryless};
ghost use Rattle.word_carryless.specs.Spread.{spread_step};

use crate::nibbles::{bytes_of_128, high_squares, low_squares, number_of_bytes};
use crate::split::split_64;

/// The carryless square of half a word: bit i moves to place 2i.
///
/// ```text
/// 16 abcdefghijklmnop  ->  8 abcdefgh 8 ijklmnop  ->  4 abcd 4 efgh 4 ijkl 4 mnop  ->  ..
/// ```
pub fn spread_32(x: u32) -> u64
    ensures { result ≡ carryless x x }
{
    let halves = move_halves(x as u64, 16, 0x0000_ffff_0000_ffff);
    let bytes = move_halves(halves, 8, 0x00ff_00ff_00ff_00ff);
    let nibbles = move_halves(bytes, 4, 0x0f0f_0f0f_0f0f_0f0f);
    let pairs = move_halves(nibbles, 2, 0x3333_3333_3333_3333);
    move_halves(pairs, 1, 0x5555_5555_5555_5555)
}

/// The carryless square of a word.
pub fn carryless_square_64(x: u64) -> u128
    ensures { result ≡ carryless x x }
{
    let (low, high) = split_64(x);
    ((spread_32(high) as u128) << 64) ^ (spread_32(low) as u128)
}

/// The carryless square of a double word, low half first: the squares of the low and the high half of each byte, in turn.
pub fn carryless_square_128(x: u128) -> (u128, u128)
    ensures { carryless x x ≡ result.1 * 2 ^ 128 + result.0 }
{
    let bytes = bytes_of_128(x);
    let (first, second) = low_squares(bytes).interleave(high_squares(bytes));
    (number_of_bytes(first), number_of_bytes(second))
}

/// Moves the two halves of each field of a word apart by `shift`; `mask` has the places where they end up.
fn move_halves(x: u64, shift: u32, mask: u64) -> u64
    requires { shift < 64 }
    ensures { result ≡ spread_step shift mask x }
{
    (x ^ (x << shift)) & mask
}
