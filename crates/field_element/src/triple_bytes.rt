// Three words as bytes: those of the first word, then those of the others.
ghost use Rattle.std.specs.Prelude.{◌≡◌, ◌<◌, ◌*◌, ◌^◌, ◌+◌, refl};
ghost use Rattle.std.proofs.Common.{lit<};
ghost use Rattle.field_base.specs.Chunks.{chunk};
ghost use Rattle.field_bytes.specs.Bytes.{low_bytes, number_of_bytes};
ghost use Rattle.word_polynomial.specs.Triple.{triple_number};

use crate::element::Coefficients;
use field_bytes::{LittleEndian, put_byte, read_byte};
use word_polynomial::Triple;

// Byte `i` of the 24 bytes of three words.
#[tactic(auto, using(crate::proofs::TripleBytes::first_byte, crate::proofs::TripleBytes::second_byte, crate::proofs::TripleBytes::third_byte))]
fn byte_of(words: Triple, i: usize) -> u8
    requires { i < 24 }
    ensures { result ≡ chunk 8 i (triple_number words) }
{
    if i < 8 {
        read_byte(words.c0, i)
    } else if i < 16 {
        read_byte(words.c1, i - 8)
    } else {
        read_byte(words.c2, i - 16)
    }
}

// All bytes of three words.
fn bytes_of(words: Triple) -> [u8; 24]
    ensures { result ≡ low_bytes 24 (triple_number words) }
{
    [
        byte_of(words, 0),
        byte_of(words, 1),
        byte_of(words, 2),
        byte_of(words, 3),
        byte_of(words, 4),
        byte_of(words, 5),
        byte_of(words, 6),
        byte_of(words, 7),
        byte_of(words, 8),
        byte_of(words, 9),
        byte_of(words, 10),
        byte_of(words, 11),
        byte_of(words, 12),
        byte_of(words, 13),
        byte_of(words, 14),
        byte_of(words, 15),
        byte_of(words, 16),
        byte_of(words, 17),
        byte_of(words, 18),
        byte_of(words, 19),
        byte_of(words, 20),
        byte_of(words, 21),
        byte_of(words, 22),
        byte_of(words, 23),
    ]
}

// The words with `byte` as their byte `i`. Requires that byte `i` and those above it are 0.
fn with_byte_of(words: Triple, i: usize, byte: u8) -> Triple
    requires within { i < 24 }
    requires above { triple_number words < 2 ^ (8 * i) }
    ensures { triple_number result ≡ byte * 2 ^ (8 * i) + triple_number words }
{
    if i < 8 {
        return Triple {
            c0: put_byte(words.c0, i, byte),
            c1: words.c1,
            c2: words.c2,
        };
    }
    if i < 16 {
        return Triple {
            c0: words.c0,
            c1: put_byte(words.c1, i - 8, byte),
            c2: words.c2,
        };
    }
    Triple {
        c0: words.c0,
        c1: words.c1,
        c2: put_byte(words.c2, i - 16, byte),
    }
}

// The three words of 24 bytes.
fn words_of(bytes: [u8; 24]) -> Triple
    ensures { triple_number result ≡ number_of_bytes bytes }
{
    let (words, _) = bytes[..].as_chunks::<8>();
    Triple {
        c0: u64::from_le_bytes(words[0]),
        c1: u64::from_le_bytes(words[1]),
        c2: u64::from_le_bytes(words[2]),
    }
}

impl LittleEndian for Coefficients {
    const SIZE: usize = 24;

    ghost SIZE = { 24 };

    type Bytes = [u8; 24];

    ghost listed = { λ bytes. bytes };

    fn to_bytes(self) -> [u8; 24] {
        bytes_of(self.words())
    }

    fn byte(self, i: usize) -> u8 {
        byte_of(self.words(), i)
    }

    fn with_byte(self, i: usize, byte: u8) -> Coefficients {
        Coefficients::of_words(with_byte_of(self.words(), i, byte))
    }

    fn wide(self, k: usize) -> u64 {
        let words = self.words();
        if k == 0 {
            words.c0
        } else if k == 1 {
            words.c1
        } else {
            words.c2
        }
    }

    fn of_wide(n: u64) -> Coefficients {
        Coefficients::of_words(Triple::of_low(n))
    }

    fn from_bytes(bytes: [u8; 24]) -> Coefficients {
        Coefficients::of_words(words_of(bytes))
    }

    ghost size_law = { refl };

    ghost wide_law = { lit< tt };
}
