// Calls over messages.
// Written by scripts/make_c_exports.py; do not edit.
ghost use Rattle.std.specs.Prelude.{◌^◌, ◌<◌, ◌++◌, length};
ghost use Rattle.tags.specs.Absorbed.{HoldsGhash, HoldsPolyval};
ghost use Rattle.tags.specs.Blocks.{blocks_of, gcm_blocks, zero_padded};
ghost use Rattle.tags.specs.Gcm.{ghash};
ghost use Rattle.tags.specs.Pieces.{hash_with_lengths};
ghost use Rattle.tags.specs.Polyval.{polyval};
ghost use Rattle.c_calls.specs.Bytes.{BeginsHash, ChangesMessage, Compares, EndsHash, Hashes};

use c_calls::HashState;
use std::simd::prelude::*;

/// GHASH of the message (NIST SP 800-38D), zeros added to whole blocks; key and hash have 16 bytes.
#[unsafe(no_mangle)]
pub extern "C" fn bf_tag_ghash(key: &[u8], message: &[u8], hash: &mut [u8]) -> u32
    ensures { Hashes (Unit {0}) key.now (ghash key.now (blocks_of message.now)) hash.old hash.new result }
{
    c_calls::hash::<tags::HighestFirst, u64x2>(key, message, hash)
}

/// POLYVAL of the message (RFC 8452), zeros added to whole blocks; key and hash have 16 bytes.
#[unsafe(no_mangle)]
pub extern "C" fn bf_tag_polyval(key: &[u8], message: &[u8], hash: &mut [u8]) -> u32
    ensures { Hashes (Unit {0}) key.now (polyval key.now (blocks_of message.now)) hash.old hash.new result }
{
    c_calls::hash::<tags::LowestFirst, u64x2>(key, message, hash)
}

/// The hash of GCM over associated data and ciphertext, each below 2^61 bytes, with the block of their lengths; key and hash have 16
/// bytes.
#[unsafe(no_mangle)]
pub extern "C" fn bf_tag_gcm_ghash(
    key: &[u8],
    associated: &[u8],
    ciphertext: &[u8],
    hash: &mut [u8],
) -> u32
    ensures { Hashes ((length associated.now < 2 ^ 61) × (length ciphertext.now < 2 ^ 61)) key.now
        (ghash key.now (gcm_blocks associated.now ciphertext.now)) hash.old hash.new result }
{
    c_calls::gcm_ghash::<u64x2>(key, associated, ciphertext, hash)
}

/// The hash of the empty message under the key, to which tag_ghash_update adds bytes; key has 16 bytes.
#[unsafe(no_mangle)]
pub extern "C" fn bf_tag_ghash_init(state: &mut HashState, key: &[u8]) -> u32
    ensures { BeginsHash HoldsGhash key.now state.old state.new result }
{
    c_calls::hash_begin::<tags::HighestFirst>(state, key)
}

/// Adds bytes to the message, of any number: no zeros come between them and the next ones.
#[unsafe(no_mangle)]
pub extern "C" fn bf_tag_ghash_update(state: &mut HashState, message: &[u8]) -> u32
    ensures { ChangesMessage HoldsGhash (λ m. m ++ message.now) state.old state.new result }
{
    c_calls::hash_update::<tags::HighestFirst, u64x2>(state, message)
}

/// Adds as many zeros as make the message whole blocks, which may be none.
#[unsafe(no_mangle)]
pub extern "C" fn bf_tag_ghash_pad(state: &mut HashState) -> u32
    ensures { ChangesMessage HoldsGhash (λ m. zero_padded m) state.old state.new result }
{
    c_calls::hash_pad::<tags::HighestFirst>(state)
}

/// What tag_ghash gives of the message, which is then empty, under the same key; hash has 16 bytes.
#[unsafe(no_mangle)]
pub extern "C" fn bf_tag_ghash_final(state: &mut HashState, hash: &mut [u8]) -> u32
    ensures { EndsHash HoldsGhash (Unit {0}) (λ key m. ghash key (blocks_of m)) state.old hash.old state.new hash.new result }
{
    c_calls::hash_end::<tags::HighestFirst>(state, hash)
}

/// The hash of the empty message under the key, to which tag_polyval_update adds bytes; key has 16 bytes.
#[unsafe(no_mangle)]
pub extern "C" fn bf_tag_polyval_init(state: &mut HashState, key: &[u8]) -> u32
    ensures { BeginsHash HoldsPolyval key.now state.old state.new result }
{
    c_calls::hash_begin::<tags::LowestFirst>(state, key)
}

/// Adds bytes to the message, of any number: no zeros come between them and the next ones.
#[unsafe(no_mangle)]
pub extern "C" fn bf_tag_polyval_update(state: &mut HashState, message: &[u8]) -> u32
    ensures { ChangesMessage HoldsPolyval (λ m. m ++ message.now) state.old state.new result }
{
    c_calls::hash_update::<tags::LowestFirst, u64x2>(state, message)
}

/// Adds as many zeros as make the message whole blocks, which may be none.
#[unsafe(no_mangle)]
pub extern "C" fn bf_tag_polyval_pad(state: &mut HashState) -> u32
    ensures { ChangesMessage HoldsPolyval (λ m. zero_padded m) state.old state.new result }
{
    c_calls::hash_pad::<tags::LowestFirst>(state)
}

/// What tag_polyval gives of the message, which is then empty, under the same key; hash has 16 bytes.
#[unsafe(no_mangle)]
pub extern "C" fn bf_tag_polyval_final(state: &mut HashState, hash: &mut [u8]) -> u32
    ensures { EndsHash HoldsPolyval (Unit {0}) (λ key m. polyval key (blocks_of m)) state.old hash.old state.new hash.new result }
{
    c_calls::hash_end::<tags::LowestFirst>(state, hash)
}

/// What tag_gcm_ghash gives, where the message is the associated data, tag_ghash_pad behind them, and the ciphertext, by their lengths in
/// bytes, each below 2^61; the message is then empty, under the same key; hash has 16 bytes.
#[unsafe(no_mangle)]
pub extern "C" fn bf_tag_gcm_ghash_final(
    state: &mut HashState,
    associated_length: u64,
    ciphertext_length: u64,
    hash: &mut [u8],
) -> u32
    ensures { EndsHash HoldsGhash ((associated_length < 2 ^ 61) × (ciphertext_length < 2 ^ 61))
        (hash_with_lengths associated_length ciphertext_length) state.old hash.old state.new
        hash.new result }
{
    c_calls::gcm_hash_end(state, associated_length, ciphertext_length, hash)
}

/// 1 where the two have the same bytes, else 0. What a compiler made of it was looked at: all bytes are read whatever they are, and one
/// test comes at the end; unlike lengths return at once. docs/THEOREMS.md says what was looked at of other functions.
#[unsafe(no_mangle)]
pub extern "C" fn bf_tags_are_equal(left: &[u8], right: &[u8], equal: &mut u8) -> u32
    ensures { Compares left.now right.now equal.new result }
{
    c_calls::tags_are_equal(left, right, equal)
}
