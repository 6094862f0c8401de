// Stored words by their bytes, the lowest first.
ghost use Rattle.std.specs.Prelude.{◌≡◌, ◌<◌, ◌≤◌, ◌+◌, ◌*◌, ◌^◌, ◌%◌, ℕ, List};
ghost use Rattle.field_base.specs.Chunks.{chunk};
ghost use Rattle.field_bytes.specs.Bytes.{low_bytes, number_of_bytes};

mod impls;

use field_base::{Stored, Unsigned};

/// A word that stores an element and is a whole number of bytes.
pub trait LittleEndian: Stored {
    /// How many bytes a word has.
    const SIZE: usize;

    ghost SIZE: { ℕ };

    /// The array of a word's bytes.
    type Bytes: Drop;

    // The bytes of the array, as a list.
    ghost listed: { Self.Bytes → List ℕ };

    /// The bytes of the word's number, the lowest first.
    fn to_bytes(self) -> Self::Bytes
        ensures { listed result ≡ low_bytes SIZE (Self.number self) };

    /// Byte `i` of the word's number, counted from the lowest. Requires `i` below `SIZE`.
    fn byte(self, i: usize) -> u8
        requires { i < SIZE }
        ensures { result ≡ chunk 8 i (Self.number self) };

    /// The word with `byte` as its byte `i`. Requires `i` below `SIZE`, and that byte `i` and those above it are 0.
    fn with_byte(self, i: usize, byte: u8) -> Self
        requires within { i < SIZE }
        requires above { Self.number self < 2 ^ (8 * i) }
        ensures { Self.number result ≡ byte * 2 ^ (8 * i) + Self.number self };

    /// Word `k` of 64 bits of the word's number, counted from the lowest. Requires that it begins within the bytes.
    fn wide(self, k: usize) -> u64
        requires { 8 * k < SIZE }
        ensures { result ≡ chunk 64 k (Self.number self) };

    /// The word of a number of 64 bits. Bits above the word are dropped.
    fn of_wide(n: u64) -> Self
        ensures { Self.number result ≡ n % 2 ^ Self.bits };

    /// The word of its bytes, the lowest first.
    fn from_bytes(bytes: Self::Bytes) -> Self
        ensures { Self.number result ≡ number_of_bytes (listed bytes) };

    ghost size_law: { Self.bits ≡ 8 * SIZE };

    ghost wide_law: { 0 < SIZE };
}

// Byte `i` of a number of 16 bytes, counted from the lowest.
#[inline]
fn byte_of(n: u128, i: usize) -> u8
    requires { i < 16 }
    ensures { result ≡ chunk 8 i n }
{
    ((n >> (8 * i)) & 0xff) as u8
}

/// Word `k` of 64 bits of an integer of at most 16 bytes, counted from the lowest.
#[inline]
#[tactic(auto, using(crate::proofs::Wide::low_word))]
pub(crate) fn wide_of<U: Unsigned>(word: U, k: usize) -> u64
    requires { k < 2 }
    ensures { result ≡ chunk 64 k (U.number word) }
{
    let number = word.to_u128();
    if k == 0 {
        (number % 0x1_0000_0000_0000_0000) as u64
    } else {
        (number >> 64) as u64
    }
}

// What a byte is worth as byte `i` of a number.
#[inline]
#[tactic(auto, using(crate::proofs::Placing::byte_placed))]
fn placed(byte: u8, i: usize) -> u128
    requires { i < 16 }
    ensures fits { byte < 2 ^ 8 }
    ensures worth { result ≡ byte * 2 ^ (8 * i) }
{
    u128::from(byte) << (8 * i)
}

/// Byte `i` of an integer of at most 16 bytes, counted from the lowest.
#[inline]
pub fn read_byte<U: Unsigned>(word: U, i: usize) -> u8
    requires { i < 16 }
    ensures { result ≡ chunk 8 i (U.number word) }
{
    byte_of(word.to_u128(), i)
}

/// The integer with `byte` as its byte `i`. Requires that byte `i` and those above it are 0.
#[inline]
pub fn put_byte<U: Unsigned>(word: U, i: usize, byte: u8) -> U
    requires short { U.bits ≤ 128 }
    requires within { 8 * i + 8 ≤ U.bits }
    requires above { U.number word < 2 ^ (8 * i) }
    ensures { U.number result ≡ byte * 2 ^ (8 * i) + U.number word }
{
    U::of_u128(placed(byte, i) + word.to_u128())
}
