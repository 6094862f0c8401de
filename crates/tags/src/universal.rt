// Universal hashes of a message that comes in pieces.
ghost use Rattle.std.specs.Prelude.{◌≡◌, ◌↔◌, ◌*◌, ◌<◌, ◌^◌, List, ℕ, [], ◌∷◌, ◌++◌, length, true};
ghost use Rattle.tags.specs.Absorbed.{HoldsKeyed};
ghost use Rattle.tags.specs.Blocks.{blocks_of, zero_padded};

use crate::absorber::Absorber;
use crate::compare::tags_are_equal;
use crate::encoding::{Encoding, HighestFirst, LowestFirst};
use ghash_slices::Width;
use std::marker::PhantomData;
use std::simd::prelude::*;

/// A universal hash of the message so far, under a key: it takes its message in pieces, and what it holds is its key and its message.
pub trait UniversalHash: Sized {
    // Whether a hash holds this key and this message.
    ghost holds: { Self → List ℕ → List ℕ → Type 0 };

    // The hash of blocks under a key, by the standard.
    ghost hash: { List ℕ → List (List ℕ) → List ℕ };

    /// The hash of the empty message under the key `key`, a block.
    fn new(key: &[u8; 16]) -> Self
        ensures { holds result key.now [] };

    /// Adds `bytes` to the message. They may be of any number, and no zeros come between them and the next ones.
    fn update(&mut self, bytes: &[u8])
        ensures { (key m : List ℕ) → holds self.old key m → holds self.new key (m ++ bytes.now) };

    /// Adds `bytes` to the message, and then as many zero bytes as make the message whole blocks, which may be none.
    fn update_padded(&mut self, bytes: &[u8])
        ensures { (key m : List ℕ) → holds self.old key m → holds self.new key (zero_padded (m ++ bytes.now)) };

    /// The hash of the blocks of the message, as [`finalize`](UniversalHash::finalize) gives it. The message is then empty, under the same key.
    fn finalize_reset(&mut self) -> [u8; 16]
        ensures value { (key m : List ℕ) → holds self.old key m → result ≡ hash key (blocks_of m) }
        ensures empty { (key m : List ℕ) → holds self.old key m → holds self.new key [] };

    /// The hash of the blocks of the message, the last one filled up with zeros; of an empty message 16 zeros.
    fn finalize(self) -> [u8; 16]
        ensures { (key m : List ℕ) → holds self key m → result ≡ hash key (blocks_of m) };

    /// Whether `tag` is the hash of the message. All of its bytes are read, whatever they are, if they are 16; of other lengths it is false.
    /// Nothing is claimed on the time that it takes.
    final fn verify(self, tag: &[u8]) -> bool
        ensures { (key m : List ℕ) → holds self key m → (result ≡ true) ↔ (tag.now ≡ hash key (blocks_of m)) }
    {
        tags_are_equal(tag, &self.finalize())
    }
}

/// A universal hash of blocks that are written as `E` says, `Ghash` or `Polyval`, computed in vectors `V`.
#[derive(Drop)]
pub struct KeyedHash<E, V = u64x2> {
    absorber: Absorber,
    encoding: PhantomData<E>,
    vectors: PhantomData<V>,
}

impl<E: Encoding, V: Width> UniversalHash for KeyedHash<E, V> {
    ghost holds = { λ s key m. HoldsKeyed E.element E.multiplier s key m };

    ghost hash = { E.hash };

    fn new(key: &[u8; 16]) -> KeyedHash<E, V> {
        KeyedHash {
            absorber: Absorber::new(E::multiplier_of(*key)),
            encoding: PhantomData,
            vectors: PhantomData,
        }
    }

    fn update(&mut self, bytes: &[u8]) {
        self.absorber.update::<E, V>(bytes);
    }

    fn update_padded(&mut self, bytes: &[u8]) {
        self.absorber.update::<E, V>(bytes);
        self.absorber.pad::<E>();
    }

    fn finalize_reset(&mut self) -> [u8; 16] {
        E::write(self.absorber.take_hash::<E>())
    }

    fn finalize(mut self) -> [u8; 16] {
        E::write(self.absorber.take_hash::<E>())
    }
}

/// GHASH (NIST SP 800-38D, section 6.4) of the message so far, under a hash key.
///
/// In a block the highest bit of byte 0 is the coefficient of x^0. What a hash holds is its key and its message.
pub type Ghash = KeyedHash<HighestFirst>;

/// POLYVAL (RFC 8452, section 3) of the message so far, under a key.
///
/// In a block the lowest bit of byte 0 is the coefficient of x^0. What a hash holds is its key and its message.
pub type Polyval = KeyedHash<LowestFirst>;

// The hash of two parts of a message, each filled up with zeros to whole blocks, and of a block of both lengths in bits, by powers of the key.
pub(crate) fn hash_of_long_parts<E: Encoding, V: Width>(
    key: &[u8; 16],
    associated: &[u8],
    text: &[u8],
) -> [u8; 16]
    requires associated_fits { length associated.now < 2 ^ 61 }
    requires text_fits { length text.now < 2 ^ 61 }
    ensures { result ≡ E.hash key.now (blocks_of associated.now ++ blocks_of text.now
        ++ (E.bytes (length associated.now * 8) ++ E.bytes (length text.now * 8)) ∷ []) }
{
    let mut hash = KeyedHash::<E, V>::new(key);
    hash.update_padded(associated);
    hash.update_padded(text);
    hash.update(&E::bytes_of(associated.len() as u64 * 8));
    hash.update(&E::bytes_of(text.len() as u64 * 8));
    hash.finalize()
}
