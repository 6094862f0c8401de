// Hash functions whose digests have 32 bytes.
ghost use Rattle.std.specs.Prelude.{◌≡◌, ℕ, List};
ghost use Rattle.sha2.specs.Sha256.{sha256};

use sha2::{Digest, Sha256};

/// A hash function whose digests have 32 bytes. A digest depends on the hasher and the bytes alone.
pub trait ByteHasher32: Copy {
    // The digest of a list of bytes.
    ghost digest: { Self → List ℕ → List ℕ };

    /// The digest of the bytes. It takes no memory.
    fn hash32(&self, bytes: &[u8]) -> [u8; 32]
        ensures { result ≡ digest self.now bytes.now };
}

/// SHA-256 (FIPS 180-4), of the crate `sha2`.
#[derive(Clone, Copy, Debug, Default, PartialEq, Eq)]
pub struct Sha256Hasher;

impl ByteHasher32 for Sha256Hasher {
    ghost digest = { λ _ bytes. sha256 bytes };

    fn hash32(&self, bytes: &[u8]) -> [u8; 32] {
        Sha256::digest(bytes)
    }
}
