// The hash of many whole blocks, in interleaved sums.
//
// Sum j is over every 32nd block from block j on, each time multiplied by the same power of the key: so 32 products by one scalar go at
// once, in lanes, where Horner's rule over all blocks would wait for each product. Horner's rule over the sums then gives the hash. No
// address and no branch depends on a byte.
ghost use Rattle.std.specs.Prelude.{◌≡◌, ◌%◌, ◌/◌, ◌≤◌, ℕ, bit_xor, fold, length, map};
ghost use Rattle.std.specs.Simd.Lanes.{zip2};
ghost use Rattle.field_base.specs.Powers.{repeated_square};
ghost use Rattle.ghash_slices.specs.LowStages.{ghash_product};
ghost use Rattle.ghash_slices.specs.Multiples.{scalar_of};
ghost use Rattle.ghash_slices.specs.Stages.{add_multiple};
ghost use Rattle.tags.specs.Blocks.{first_blocks};
ghost use Rattle.tags.specs.Powers.{ArePowers};
ghost use Rattle.tags.specs.Reversed.{ghash_times};

use crate::blocks::{BLOCK_LENGTH, Powers, read_block, sum_of_products};
use crate::encoding::Encoding;
use ghash_slices::{Multiples, Width, add_in_lanes};
use word_carryless::square_mod_128;

// The sums.
const SUMS: usize = 32;

/// The bytes of a turn, which gives each sum one block more.
pub(crate) const TURN: usize = 512;

/// The least number of bytes that pay for the multiples of the key's power, and for Horner's rule over the sums.
pub(crate) const LEAST_INTERLEAVED: usize = 1024;

// The hash after turns of 32 blocks more, of which there is one at least.
pub(crate) fn with_turns<E: Encoding, V: Width>(sum: u128, powers: &Powers, blocks: &[u8]) -> u128
    requires whole { length blocks.now % 512 ≡ 0 }
    requires some { 512 ≤ length blocks.now }
    ensures { (key : ℕ) → ArePowers key powers.now
        → result ≡ fold (λ y x. ghash_times (bit_xor y x) key) sum (map E.element (first_blocks (length blocks.now / 16) blocks.now)) }
{
    let multiples = Multiples::new(power_of_turn(powers.key));
    let mut sums = read_blocks::<E>(&blocks[..TURN]);
    sums[0] = sum ^ sums[0];
    for turn in 1..blocks.len() / TURN {
        let at = TURN * turn;
        add_turn::<E, V>(&mut sums, &multiples, &blocks[at..at + TURN]);
    }
    hash_of_sums(&sums, powers)
}

// The key to the power of 32.
fn power_of_turn(key: u128) -> u128
    ensures { result ≡ repeated_square 1 ghash_times 5 key }
{
    let mut power = key;
    for _ in 0..5usize {
        power = square_mod_128(power);
    }
    power
}

// The elements of 32 blocks.
fn read_blocks<E: Encoding>(blocks: &[u8]) -> [u128; SUMS]
    requires { length blocks.now ≡ 512 }
    ensures { result ≡ map E.element (first_blocks 32 blocks.now) }
{
    let mut elements = [0; SUMS];
    for place in 0..SUMS {
        let at = BLOCK_LENGTH * place;
        elements[place] = read_block::<E>(&blocks[at..at + BLOCK_LENGTH]);
    }
    elements
}

// Multiplies each sum by the scalar, and adds to it the next block.
fn add_turn<E: Encoding, V: Width>(sums: &mut [u128; SUMS], multiples: &Multiples, blocks: &[u8])
    requires { length blocks.now ≡ 512 }
    ensures { sums.new ≡ zip2 (add_multiple ghash_product (scalar_of multiples.now)) (map E.element (first_blocks 32 blocks.now)) sums.old }
{
    let mut next = read_blocks::<E>(blocks);
    add_in_lanes::<V, u128>(&mut next, sums, multiples);
    *sums = next;
}

// The hash of the sums, by Horner's rule, four at a time.
fn hash_of_sums(sums: &[u128; SUMS], powers: &Powers) -> u128
    ensures { (key : ℕ) → ArePowers key powers.now → result ≡ fold (λ y x. ghash_times (bit_xor y x) key) 0 sums.now }
{
    let mut hash = 0;
    for four in 0..SUMS / 4 {
        let at = 4 * four;
        hash = sum_of_products(
            hash ^ sums[at],
            sums[at + 1],
            sums[at + 2],
            sums[at + 3],
            powers,
        );
    }
    hash
}
