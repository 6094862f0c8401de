// Hashes of whole messages: short ones by the key alone, since its powers take as long as three blocks.
ghost use Rattle.std.specs.Prelude.{◌≡◌, ◌<◌, ◌^◌, ◌*◌, ◌++◌, [], ◌∷◌, ℕ, bit_xor, fold, length, map};
ghost use Rattle.tags.specs.Blocks.{blocks_of};
ghost use Rattle.tags.specs.Reversed.{ghash_times};

use crate::blocks::{BLOCK_LENGTH, read_block};
use crate::encoding::Encoding;
use crate::state::padded_block;
use crate::universal::{KeyedHash, UniversalHash, hash_of_long_parts};
use ghash_slices::Width;
use word_carryless::multiply_mod_128;

// How many bytes a message has for which the powers of the key pay, each product of four blocks being somewhat faster than four.
const LEAST_BY_POWERS: usize = 256;

/// The hash of a message under a key, a block, as [`UniversalHash::finalize`] gives it, computed in vectors `V`: the last block is filled up
/// with zeros, and of an empty message it is 16 zeros. It takes no memory.
pub fn hash_of<E: Encoding, V: Width>(key: &[u8; 16], message: &[u8]) -> [u8; 16]
    ensures { result ≡ E.hash key.now (blocks_of message.now) }
{
    if message.len() < LEAST_BY_POWERS {
        return E::write(with_message::<E>(0, E::multiplier_of(*key), message));
    }
    let mut hash = KeyedHash::<E, V>::new(key);
    hash.update(message);
    hash.finalize()
}

// The hash of two parts of a message, each filled up with zeros to whole blocks, and of a block of both lengths in bits.
pub(crate) fn hash_of_parts<E: Encoding, V: Width>(
    key: &[u8; 16],
    associated: &[u8],
    text: &[u8],
) -> [u8; 16]
    requires associated_fits { length associated.now < 2 ^ 61 }
    requires text_fits { length text.now < 2 ^ 61 }
    ensures { result ≡ E.hash key.now (blocks_of associated.now ++ blocks_of text.now
        ++ (E.bytes (length associated.now * 8) ++ E.bytes (length text.now * 8)) ∷ []) }
{
    if associated.len() + text.len() >= LEAST_BY_POWERS {
        return hash_of_long_parts::<E, V>(key, associated, text);
    }
    let multiplier = E::multiplier_of(*key);
    let lengths = joined(
        E::bytes_of(associated.len() as u64 * 8),
        E::bytes_of(text.len() as u64 * 8),
    );
    let first = with_message::<E>(0, multiplier, associated);
    let both = with_message::<E>(first, multiplier, text);
    E::write(multiply_mod_128(both ^ E::read(lengths), multiplier))
}

// The hash after a message more, one block after another, the last one filled up with zeros.
fn with_message<E: Encoding>(sum: u128, multiplier: u128, message: &[u8]) -> u128
    ensures { result ≡ fold (λ y x. ghash_times (bit_xor y x) multiplier) sum (map E.element (blocks_of message.now)) }
{
    let whole = message.len() / BLOCK_LENGTH;
    let mut hash = sum;
    for i in 0..whole {
        let at = BLOCK_LENGTH * i;
        let element = read_block::<E>(&message[at..at + BLOCK_LENGTH]);
        hash = multiply_mod_128(hash ^ element, multiplier);
    }
    let end = BLOCK_LENGTH * whole;
    if end < message.len() {
        let element = E::read(padded_block(&message[end..]));
        hash = multiply_mod_128(hash ^ element, multiplier);
    }
    hash
}

// The block of two halves.
fn joined(first: [u8; 8], second: [u8; 8]) -> [u8; 16]
    ensures { result ≡ first ++ second }
{
    let mut block = [0; 16];
    block[..8].copy_from_slice(&first);
    block[8..].copy_from_slice(&second);
    block
}
