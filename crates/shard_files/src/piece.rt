// What a shard's file has of one stripe: a digest, and the shard's bytes in the stripe. The digest is the SHA-256 of the digest of the
// file's head, of the number of the stripe as eight bytes, the lowest first, and of the bytes.
ghost use Rattle.std.specs.Prelude.{◌≡◌, ◌++◌, ◌↔◌, ◌≤◌, drop, length, IsTrue, IsOk};
ghost use Rattle.std.specs.Int.{w64, to_le_bytes};
ghost use Rattle.sha2.specs.Sha256.{sha256};
ghost use Rattle.shard_files.specs.Pieces.{piece_bytes, piece_digest};

use sha2::{Digest, Sha256};

/// How many bytes the digest of a piece has.
pub const DIGEST: usize = 32;

/// The digest of a piece.
pub(crate) fn digest_of(head_digest: &[u8], stripe: u64, shard: &[u8]) -> [u8; 32]
    ensures { result ≡ piece_digest head_digest.now stripe shard.now }
{
    let mut hasher = Sha256::new();
    hasher.update(head_digest);
    hasher.update(&stripe.to_le_bytes());
    hasher.update(shard);
    hasher.finalize()
}

/// Whether bytes are those of a piece.
pub(crate) fn is_piece(head_digest: &[u8], stripe: u64, piece: &[u8]) -> bool
    ensures { IsTrue result ↔ (piece.now ≡ piece_bytes head_digest.now stripe (drop 32 piece.now)) }
{
    if piece.len() < DIGEST {
        return false;
    }
    let digest = digest_of(head_digest, stripe, &piece[DIGEST..]);
    piece[..DIGEST] == digest[..]
}
