// How a standard writes blocks: a block of 16 bytes as an element of the field, where bit i of a number is the coefficient of x^i, a key as what
// the field multiplies by, a hash as a block, and a length as 8 bytes.
ghost use Rattle.std.specs.Prelude.{◌≡◌, ◌<◌, ◌^◌, ℕ, List, map};
ghost use Rattle.std.specs.Int.{to_be_bytes, to_le_bytes, w64};
ghost use Rattle.tags.specs.Gcm.{ghash};
ghost use Rattle.tags.specs.Hash.{polynomial_hash};
ghost use Rattle.tags.specs.lemmas.Multiplier.{ghash_element-lt, polyval_multiplier-lt};
ghost use Rattle.tags.specs.Polyval.{polyval};
ghost use Rattle.tags.specs.Reversed.{ghash_element, ghash_times, polyval_element, polyval_multiplier};

use crate::reversal::reversed_bits;
use word_carryless::multiply_mod_128;

/// How a standard writes blocks, keys, hashes and lengths.
pub trait Encoding {
    // The element of a block, what the field multiplies by for a key, the standard's hash of blocks under a key, and a number as 8 bytes.
    ghost element: { List ℕ → ℕ };

    ghost multiplier: { List ℕ → ℕ };

    ghost hash: { List ℕ → List (List ℕ) → List ℕ };

    ghost bytes: { ℕ → List ℕ };

    // What the field multiplies by has 128 bits.
    ghost multiplier_law: { (key : List ℕ) → multiplier key < 2 ^ 128 };

    /// The element of a block.
    fn read(block: [u8; 16]) -> u128
        ensures { result ≡ element block };

    /// What the field multiplies by, for a key.
    fn multiplier_of(key: [u8; 16]) -> u128
        ensures { result ≡ multiplier key };

    /// The block of a sum: where the sum is the hash of the elements of blocks, the standard's hash of the blocks.
    fn write(sum: u128) -> [u8; 16]
        ensures { (key : List ℕ) (blocks : List (List ℕ)) → sum ≡ polynomial_hash ghash_times (multiplier key) (map element blocks)
            → result ≡ hash key blocks };

    /// The 8 bytes of a number.
    fn bytes_of(number: u64) -> [u8; 8]
        ensures { result ≡ bytes number };
}

/// The blocks of GHASH (NIST SP 800-38D): the highest bit of the first byte is the coefficient of x^0.
pub struct HighestFirst;

impl Encoding for HighestFirst {
    ghost element = { ghash_element };

    ghost multiplier = { ghash_element };

    ghost hash = { ghash };

    ghost bytes = { to_be_bytes w64 };

    ghost multiplier_law = { ghash_element-lt };

    #[inline]
    fn read(block: [u8; 16]) -> u128 {
        reversed_bits(u128::from_be_bytes(block))
    }

    fn multiplier_of(key: [u8; 16]) -> u128 {
        Self::read(key)
    }

    fn write(sum: u128) -> [u8; 16] {
        reversed_bits(sum).to_be_bytes()
    }

    fn bytes_of(number: u64) -> [u8; 8] {
        number.to_be_bytes()
    }
}

/// The blocks of POLYVAL (RFC 8452), in the field of GHASH: the highest bit of the last byte is the coefficient of x^0. Its product is that of
/// the field times x, which is taken into the key.
pub struct LowestFirst;

impl Encoding for LowestFirst {
    ghost element = { polyval_element };

    ghost multiplier = { polyval_multiplier };

    ghost hash = { polyval };

    ghost bytes = { to_le_bytes w64 };

    ghost multiplier_law = { polyval_multiplier-lt };

    #[inline]
    fn read(block: [u8; 16]) -> u128 {
        reversed_bits(u128::from_le_bytes(block))
    }

    fn multiplier_of(key: [u8; 16]) -> u128 {
        multiply_mod_128(2, Self::read(key))
    }

    fn write(sum: u128) -> [u8; 16] {
        reversed_bits(sum).to_le_bytes()
    }

    fn bytes_of(number: u64) -> [u8; 8] {
        number.to_le_bytes()
    }
}
