// A hash in pieces as plain data, which a caller of another language can hold.
ghost use Rattle.std.specs.Prelude.{◌≡◌, ◌<◌, ◌≤◌, ◌^◌, ◌++◌, ℕ, List, [], length, replicate, take};
ghost use Rattle.tags.specs.Absorbed.{Holds, HoldsGhash, Stores, StoresKeyed};
ghost use Rattle.tags.specs.Blocks.{block_of_lengths, blocks_of, zero_padded};
ghost use Rattle.tags.specs.Pieces.{hash_with_lengths};

use crate::absorber::Absorber;
use crate::blocks::{BLOCK_LENGTH, Powers};
use crate::encoding::{Encoding, HighestFirst};
use ghash_slices::Width;
use std::simd::prelude::*;

/// A universal hash of the message so far, under a key, as bytes and a number: it holds no address and may be copied. A hash takes its
/// message in pieces of any length.
///
/// Of other contents than those that these functions wrote nothing is claimed, but every call returns.
#[repr(C)]
#[derive(Clone, Copy)]
pub struct HashState {
    // The powers of the key up to the fourth, 16 bytes each.
    powers: [u8; 64],
    // The hash of the whole blocks so far, an element of the field.
    sum: [u8; 16],
    // The bytes after them, and zeros.
    block: [u8; 16],
    // How many bytes these are, fewer than 16.
    used: u64,
}

impl HashState {
    /// The hash of the empty message under the key `key`, a block.
    pub fn new<E: Encoding>(key: &[u8; 16]) -> HashState
        ensures { StoresKeyed E.element E.multiplier result key.now [] }
    {
        HashState::of(&Absorber::new(E::multiplier_of(*key)))
    }

    /// Adds `bytes` to the message. They may be of any number, and no zeros come between them and the next ones.
    pub fn update<E: Encoding, V: Width>(&mut self, bytes: &[u8])
        ensures { (key m : List ℕ) → StoresKeyed E.element E.multiplier self.old key m
            → StoresKeyed E.element E.multiplier self.new key (m ++ bytes.now) }
    {
        let mut absorber = self.absorber();
        absorber.update::<E, V>(bytes);
        *self = HashState::of(&absorber);
    }

    /// Adds as many zero bytes as make the message whole blocks, which may be none.
    pub fn pad<E: Encoding>(&mut self)
        ensures { (key m : List ℕ) → StoresKeyed E.element E.multiplier self.old key m
            → StoresKeyed E.element E.multiplier self.new key (zero_padded m) }
    {
        let mut absorber = self.absorber();
        absorber.pad::<E>();
        *self = HashState::of(&absorber);
    }

    /// The hash of the blocks of the message, the last one filled up with zeros; of an empty message 16 zeros. The message is then empty,
    /// under the same key.
    pub fn take_hash<E: Encoding>(&mut self) -> [u8; 16]
        ensures value { (key m : List ℕ) → StoresKeyed E.element E.multiplier self.old key m → result ≡ E.hash key (blocks_of m) }
        ensures empty { (key m : List ℕ) → StoresKeyed E.element E.multiplier self.old key m
            → StoresKeyed E.element E.multiplier self.new key [] }
    {
        let mut absorber = self.absorber();
        let sum = absorber.take_hash::<E>();
        *self = HashState::of(&absorber);
        E::write(sum)
    }

    /// The hash of GCM, where the message is the associated data, zeros added to whole blocks, and the text: GHASH of that, of zeros to
    /// whole blocks, and of the block of both lengths, which are given in bytes. The message is then empty, under the same key.
    ///
    /// Each length in bits has to fit 64 bits.
    pub fn take_gcm_hash(&mut self, associated_length: u64, text_length: u64) -> [u8; 16]
        requires associated_fits { associated_length < 2 ^ 61 }
        requires text_fits { text_length < 2 ^ 61 }
        ensures value { (key m : List ℕ) → HoldsGhash self.old key m
            → result ≡ hash_with_lengths associated_length text_length key m }
        ensures empty { (key m : List ℕ) → HoldsGhash self.old key m → HoldsGhash self.new key [] }
    {
        self.pad::<HighestFirst>();
        self.update::<HighestFirst, u64x2>(&lengths(associated_length, text_length));
        self.take_hash::<HighestFirst>()
    }

    // The hash that these bytes are.
    fn absorber(&self) -> Absorber
        ensures { (element : List ℕ → ℕ) (key : ℕ) (m : List ℕ) → key < 2 ^ 128 → Stores element key self.now m
            → Holds element key result m }
    {
        Absorber {
            powers: Powers::from_bytes(&self.powers),
            sum: u128::from_le_bytes(self.sum),
            buffer: self.block,
            used: (self.used % 16) as usize,
        }
    }

    // The bytes of a hash.
    fn of(absorber: &Absorber) -> HashState
        ensures { (element : List ℕ → ℕ) (key : ℕ) (m : List ℕ) → Holds element key absorber.now m → Stores element key result m }
    {
        let used = absorber.used % BLOCK_LENGTH;
        HashState {
            powers: absorber.powers.to_bytes(),
            sum: absorber.sum.to_le_bytes(),
            block: padded_block(&absorber.buffer[..used]),
            used: used as u64,
        }
    }
}

// The block of two lengths in bytes.
fn lengths(associated_length: u64, text_length: u64) -> [u8; 16]
    requires associated_fits { associated_length < 2 ^ 61 }
    requires text_fits { text_length < 2 ^ 61 }
    ensures { result ≡ block_of_lengths associated_length text_length }
{
    let mut block = [0; 16];
    block[..8].copy_from_slice(&(associated_length * 8).to_be_bytes());
    block[8..].copy_from_slice(&(text_length * 8).to_be_bytes());
    block
}

// Up to 16 bytes as a block, with zeros behind them.
pub(crate) fn padded_block(bytes: &[u8]) -> [u8; 16]
    requires { length bytes.now ≤ 16 }
    ensures { result ≡ take 16 (bytes.now ++ replicate 16 0) }
{
    let mut block = [0; 16];
    block[..bytes.len()].copy_from_slice(bytes);
    block
}
