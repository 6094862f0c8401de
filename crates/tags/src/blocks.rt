// The hash of whole blocks over the field of GHASH, four blocks at a time.
ghost use Rattle.std.specs.Prelude.{◌≡◌, ◌<◌, ◌%◌, ◌/◌, ◌^◌, ℕ, bit_xor, drop, fold, length, map, take};
ghost use Rattle.std.specs.Int.{from_le_bytes, w128};
ghost use Rattle.tags.specs.Blocks.{first_blocks};
ghost use Rattle.tags.specs.Powers.{ArePowers, added_block};
ghost use Rattle.tags.specs.Prepared.{powers_as_bytes};
ghost use Rattle.tags.specs.Reversed.{ghash_times};

use crate::encoding::Encoding;
use crate::interleaved::{LEAST_INTERLEAVED, TURN, with_turns};
use ghash_slices::Width;
use word_carryless::{multiply_128_twice, multiply_mod_128, reduce_128};

pub(crate) const BLOCK_LENGTH: usize = 16;

const FOUR_BLOCKS: usize = 64;

// A key and its powers, up to the fourth.
#[derive(Drop)]
pub(crate) struct Powers {
    pub(crate) key: u128,
    square: u128,
    cube: u128,
    fourth: u128,
}

impl Powers {
    // The powers of a key.
    pub(crate) fn new(key: u128) -> Powers
        ensures { ArePowers key result }
    {
        let square = multiply_mod_128(key, key);
        let cube = multiply_mod_128(square, key);
        let fourth = multiply_mod_128(cube, key);
        Powers {
            key,
            square,
            cube,
            fourth,
        }
    }

    // The powers as bytes.
    pub(crate) fn to_bytes(&self) -> [u8; 64]
        ensures { (key : ℕ) → ArePowers key self.now → result ≡ powers_as_bytes key }
    {
        let mut bytes = [0; 64];
        bytes[..16].copy_from_slice(&self.key.to_le_bytes());
        bytes[16..32].copy_from_slice(&self.square.to_le_bytes());
        bytes[32..48].copy_from_slice(&self.cube.to_le_bytes());
        bytes[48..].copy_from_slice(&self.fourth.to_le_bytes());
        bytes
    }

    // The powers that were written as these bytes.
    pub(crate) fn from_bytes(bytes: &[u8; 64]) -> Powers
        ensures { (key : ℕ) → key < 2 ^ 128 → bytes.now ≡ powers_as_bytes key → ArePowers key result }
    {
        Powers {
            key: number_of(&bytes[..16]),
            square: number_of(&bytes[16..32]),
            cube: number_of(&bytes[32..48]),
            fourth: number_of(&bytes[48..64]),
        }
    }
}

// The number of 16 bytes, the lowest first.
#[inline]
fn number_of(bytes: &[u8]) -> u128
    requires { length bytes.now ≡ 16 }
    ensures { result ≡ from_le_bytes w128 bytes.now }
{
    let mut number = [0u8; 16];
    number.copy_from_slice(bytes);
    u128::from_le_bytes(number)
}

// a key^4 + b key^3 + c key^2 + d key: the four products are taken two at once, and added before one reduction.
#[inline]
pub(crate) fn sum_of_products(a: u128, b: u128, c: u128, d: u128, powers: &Powers) -> u128
    ensures { result ≡ bit_xor (bit_xor (ghash_times a powers.now.fourth) (ghash_times b powers.now.cube))
        (bit_xor (ghash_times c powers.now.square) (ghash_times d powers.now.key)) }
{
    let ((a_low, a_high), (b_low, b_high)) = multiply_128_twice(a, b, powers.fourth, powers.cube);
    let ((c_low, c_high), (d_low, d_high)) = multiply_128_twice(c, d, powers.square, powers.key);
    reduce_128(
        (a_low ^ b_low) ^ (c_low ^ d_low),
        (a_high ^ b_high) ^ (c_high ^ d_high),
    )
}

// The element of 16 bytes.
#[inline]
pub(crate) fn read_block<E: Encoding>(block: &[u8]) -> u128
    requires { length block.now ≡ 16 }
    ensures { result ≡ E.element block.now }
{
    let mut bytes = [0u8; 16];
    bytes.copy_from_slice(block);
    E::read(bytes)
}

// The hash after one block more.
#[inline]
pub(crate) fn with_block<E: Encoding>(sum: u128, powers: &Powers, block: &[u8]) -> u128
    requires { length block.now ≡ 16 }
    ensures { (key : ℕ) → ArePowers key powers.now → result ≡ added_block E.element key sum block.now }
{
    multiply_mod_128(sum ^ read_block::<E>(block), powers.key)
}

// The hash after four blocks more.
#[inline]
fn with_four_blocks<E: Encoding>(sum: u128, powers: &Powers, blocks: &[u8]) -> u128
    requires { length blocks.now ≡ 64 }
    ensures { (key : ℕ) → ArePowers key powers.now → result ≡ added_block E.element key (added_block E.element key
        (added_block E.element key (added_block E.element key sum (take 16 blocks.now)) (take 16 (drop 16 blocks.now)))
        (take 16 (drop 32 blocks.now))) (take 16 (drop 48 blocks.now)) }
{
    sum_of_products(
        sum ^ read_block::<E>(&blocks[..16]),
        read_block::<E>(&blocks[16..32]),
        read_block::<E>(&blocks[32..48]),
        read_block::<E>(&blocks[48..64]),
        powers,
    )
}

// The hash after whole blocks more: many of them in interleaved sums, and the rest four at a time.
pub(crate) fn with_blocks<E: Encoding, V: Width>(sum: u128, powers: &Powers, blocks: &[u8]) -> u128
    requires { length blocks.now % 16 ≡ 0 }
    ensures { (key : ℕ) → ArePowers key powers.now
        → result ≡ fold (λ y x. ghash_times (bit_xor y x) key) sum (map E.element (first_blocks (length blocks.now / 16) blocks.now)) }
{
    if blocks.len() < LEAST_INTERLEAVED {
        return with_few_blocks::<E>(sum, powers, blocks);
    }
    let (turns, rest) = blocks.split_at(blocks.len() - blocks.len() % TURN);
    let hash = with_turns::<E, V>(sum, powers, turns);
    with_few_blocks::<E>(hash, powers, rest)
}

// The hash after whole blocks more, four at a time.
fn with_few_blocks<E: Encoding>(sum: u128, powers: &Powers, blocks: &[u8]) -> u128
    requires { length blocks.now % 16 ≡ 0 }
    ensures { (key : ℕ) → ArePowers key powers.now
        → result ≡ fold (λ y x. ghash_times (bit_xor y x) key) sum (map E.element (first_blocks (length blocks.now / 16) blocks.now)) }
{
    let count = blocks.len() / BLOCK_LENGTH;
    let four_count = count / 4;
    let mut hash = sum;
    'fours: for i in 0..four_count {
        let at = FOUR_BLOCKS * i;
        hash = with_four_blocks::<E>(hash, powers, &blocks[at..at + FOUR_BLOCKS]);
    }
    'rest: for i in 4 * four_count..count {
        let at = BLOCK_LENGTH * i;
        hash = with_block::<E>(hash, powers, &blocks[at..at + BLOCK_LENGTH]);
    }
    hash
}
