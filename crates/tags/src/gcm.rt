// GHASH as GCM uses it, and POLYVAL as GCM-SIV does.
ghost use Rattle.std.specs.Prelude.{◌≡◌, ◌<◌, ◌^◌, length};
ghost use Rattle.tags.specs.Blocks.{gcm_blocks, gcm_siv_blocks};
ghost use Rattle.tags.specs.Gcm.{ghash};
ghost use Rattle.tags.specs.Polyval.{polyval};

use crate::encoding::{HighestFirst, LowestFirst};
use crate::short::hash_of_parts;
use ghash_slices::Width;
use std::simd::prelude::*;

/// The hash from which GCM makes its tag (NIST SP 800-38D, section 7.1, step 5): GHASH, under the hash key `key`, of the
/// associated data and of the text, each filled up with zeros to whole blocks, and of a block with both lengths in bits, 8 bytes
/// each, the highest first.
///
/// The text is the encrypted one. Each length in bits has to fit 64 bits. The tag of GCM is this hash plus the encrypted first
/// counter block.
pub fn gcm_ghash(key: &[u8; 16], associated: &[u8], text: &[u8]) -> [u8; 16]
    requires associated_fits { length associated.now < 2 ^ 61 }
    requires text_fits { length text.now < 2 ^ 61 }
    ensures { result ≡ ghash key.now (gcm_blocks associated.now text.now) }
{
    gcm_ghash_in_vectors::<u64x2>(key, associated, text)
}

/// [`gcm_ghash`], computed in vectors `V`.
pub fn gcm_ghash_in_vectors<V: Width>(key: &[u8; 16], associated: &[u8], text: &[u8]) -> [u8; 16]
    requires associated_fits { length associated.now < 2 ^ 61 }
    requires text_fits { length text.now < 2 ^ 61 }
    ensures { result ≡ ghash key.now (gcm_blocks associated.now text.now) }
{
    hash_of_parts::<HighestFirst, V>(key, associated, text)
}

/// The hash from which GCM-SIV makes its tag (RFC 8452, section 4): POLYVAL, under the message-authentication key `key`, of the associated
/// data and of the text, each filled up with zeros to whole blocks, and of a block with both lengths in bits, 8 bytes each, the lowest first.
///
/// The text is the plain one. Each length in bits has to fit 64 bits; the standard allows 2^39 bits.
pub fn gcm_siv_polyval(key: &[u8; 16], associated: &[u8], text: &[u8]) -> [u8; 16]
    requires associated_fits { length associated.now < 2 ^ 61 }
    requires text_fits { length text.now < 2 ^ 61 }
    ensures { result ≡ polyval key.now (gcm_siv_blocks associated.now text.now) }
{
    hash_of_parts::<LowestFirst, u64x2>(key, associated, text)
}
