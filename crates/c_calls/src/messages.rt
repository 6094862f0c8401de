// Universal hashes of messages, which may come in pieces.
ghost use Rattle.std.specs.Prelude.{◌≡◌, ◌^◌, ◌<◌, ◌++◌, length};
ghost use Rattle.tags.specs.Absorbed.{HoldsGhash, StoresKeyed};
ghost use Rattle.tags.specs.Blocks.{blocks_of, gcm_blocks, zero_padded};
ghost use Rattle.tags.specs.Gcm.{ghash};
ghost use Rattle.tags.specs.Pieces.{hash_with_lengths};
ghost use Rattle.c_calls.specs.Bytes.{BeginsHash, ChangesMessage, Compares, EndsHash, Hashes};

use crate::status;
use ghash_slices::Width;
use tags::{Encoding, HashState};

// The bytes of a key, and of a hash.
const BYTES: usize = 16;

// The longest part of a message for GCM, whose length in bits has 64 bits.
const PART_END: usize = 1 << 61;

/// Writes the hash of the message, zeros added to whole blocks: GHASH or POLYVAL.
pub fn hash<E: Encoding, V: Width>(key: &[u8], message: &[u8], hash: &mut [u8]) -> u32
    ensures { Hashes (Unit {0}) key.now (E.hash key.now (blocks_of message.now)) hash.old hash.new result }
{
    if key.len() != BYTES || hash.len() != BYTES {
        return status::LENGTH;
    }
    hash.copy_from_slice(&tags::hash_of::<E, V>(&block_of(key), message));
    status::OK
}

/// Makes the hash of the empty message under the key.
pub fn hash_begin<E: Encoding>(state: &mut HashState, key: &[u8]) -> u32
    ensures { BeginsHash (StoresKeyed E.element E.multiplier) key.now state.old state.new result }
{
    if key.len() != BYTES {
        return status::LENGTH;
    }
    *state = HashState::new::<E>(&block_of(key));
    status::OK
}

/// Adds bytes to the message of a hash.
pub fn hash_update<E: Encoding, V: Width>(state: &mut HashState, bytes: &[u8]) -> u32
    ensures { ChangesMessage (StoresKeyed E.element E.multiplier) (λ m. m ++ bytes.now) state.old state.new result }
{
    state.update::<E, V>(bytes);
    status::OK
}

/// Adds zeros to whole blocks to the message of a hash.
pub fn hash_pad<E: Encoding>(state: &mut HashState) -> u32
    ensures { ChangesMessage (StoresKeyed E.element E.multiplier) (λ m. zero_padded m) state.old state.new result }
{
    state.pad::<E>();
    status::OK
}

/// Writes the hash of the message, zeros added to whole blocks. The message is then empty.
pub fn hash_end<E: Encoding>(state: &mut HashState, hash: &mut [u8]) -> u32
    ensures { EndsHash (StoresKeyed E.element E.multiplier) (Unit {0}) (λ key m. E.hash key (blocks_of m))
        state.old hash.old state.new hash.new result }
{
    if hash.len() != BYTES {
        return status::LENGTH;
    }
    hash.copy_from_slice(&state.take_hash::<E>());
    status::OK
}

/// Writes the hash of GCM over associated data and ciphertext with the block of their lengths.
pub fn gcm_ghash<V: Width>(key: &[u8], associated: &[u8], ciphertext: &[u8], hash: &mut [u8]) -> u32
    ensures { Hashes ((length associated.now < 2 ^ 61) × (length ciphertext.now < 2 ^ 61)) key.now
        (ghash key.now (gcm_blocks associated.now ciphertext.now)) hash.old hash.new result }
{
    if key.len() != BYTES || hash.len() != BYTES {
        return status::LENGTH;
    }
    if associated.len() >= PART_END || ciphertext.len() >= PART_END {
        return status::LENGTH;
    }
    hash.copy_from_slice(&tags::gcm_ghash_in_vectors::<V>(&block_of(key), associated, ciphertext));
    status::OK
}

/// Writes the hash of GCM of the message, which is the associated data, zeros to whole blocks, and the ciphertext, by their lengths in
/// bytes. The message is then empty.
pub fn gcm_hash_end(
    state: &mut HashState,
    associated_length: u64,
    ciphertext_length: u64,
    hash: &mut [u8],
) -> u32
    ensures { EndsHash HoldsGhash ((associated_length < 2 ^ 61) × (ciphertext_length < 2 ^ 61))
        (hash_with_lengths associated_length ciphertext_length) state.old hash.old state.new hash.new result }
{
    if hash.len() != BYTES {
        return status::LENGTH;
    }
    if associated_length >= PART_END as u64 || ciphertext_length >= PART_END as u64 {
        return status::LENGTH;
    }
    hash.copy_from_slice(&state.take_gcm_hash(associated_length, ciphertext_length));
    status::OK
}

/// Writes 1 where the two have the same bytes, else 0, in a time that depends on the lengths alone.
pub fn tags_are_equal(left: &[u8], right: &[u8], equal: &mut u8) -> u32
    ensures { Compares left.now right.now equal.new result }
{
    *equal = u8::from(tags::tags_are_equal(left, right));
    status::OK
}

// Sixteen bytes as an array.
fn block_of(bytes: &[u8]) -> [u8; 16]
    requires { length bytes.now ≡ 16 }
    ensures { result ≡ bytes.now }
{
    let mut block = [0; 16];
    block.copy_from_slice(bytes);
    block
}
