// Words by their bytes in vectors.
ghost use Rattle.std.specs.Prelude.{◌≡◌, ℕ, ◌+◌, ◌*◌, ◌^◌, ◌<◌, ◌≤◌, length, map, refl, slice_index};
ghost use Rattle.additive_transforms.specs.Rows.{level_of};
ghost use Rattle.additive_transforms.specs.lemmas.Chunk.{four_halves};
ghost use Rattle.additive_transforms.specs.Units.{ArePut, AreUnits};

use field_base::{Holds, Stored, Unsigned};
use std::simd::prelude::*;
use word_carryless::{bytes_of_128, number_of_bytes};

mod impls;

/// A word of 1 to 16 bytes of a slice. Sixteen bytes are one word or more, the lowest byte of each first.
pub trait WordBytes<R: Stored>: Holds<R> {
    // A word has 2 to the power of so many bytes.
    ghost size: { ℕ };

    /// The sixteen bytes of the words from `start` on.
    fn read_bytes(words: &[Self], start: usize) -> u8x16
        requires { start * 2 ^ size + 16 ≤ length words.now * 2 ^ size }
        ensures { AreUnits 0 size start 16 (slice_index result) (map Self.Holds.number words.now) };

    /// Writes sixteen bytes over those of the words from `start` on.
    fn write_bytes(words: &mut [Self], start: usize, bytes: u8x16)
        requires { start * 2 ^ size + 16 ≤ length words.old * 2 ^ size }
        ensures length { length words.new ≡ length words.old }
        ensures words { ArePut 0 size start 16 (slice_index bytes) (map Self.Holds.number words.old) (map Self.Holds.number words.new) };

    /// How many words sixteen bytes are.
    fn in_sixteen() -> usize
        ensures bytes { result * 2 ^ size ≡ 16 }
        ensures some { 0 < result }
        ensures few { result ≤ 16 };

    ghost size_law: { size ≤ 4 };

    ghost bits_law: { R.bits ≡ 2 ^ level_of size };
}

/// A stored word that is a word of a slice itself, and so has one number as both.
pub trait StoredBytes: Unsigned + WordBytes<Self> {
    ghost number_law: { Self.Holds.number ≡ Self.Stored.number };
}

// Words that hold numbers of 128 bits: the numbers themselves, or their halves as other languages have them.
impl<W: Holds<u128>> WordBytes<u128> for W {
    ghost size = { 4 };

    #[inline(always)]
    fn read_bytes(words: &[W], start: usize) -> u8x16 {
        bytes_of_128(words[start].stored())
    }

    #[inline(always)]
    fn write_bytes(words: &mut [W], start: usize, bytes: u8x16) {
        words[start] = W::of_stored(number_of_bytes(bytes));
    }

    #[inline(always)]
    fn in_sixteen() -> usize {
        1
    }

    ghost size_law = { four_halves };

    ghost bits_law = { refl };
}
