// Three words of 64 bits that store one element.
ghost use Rattle.std.specs.Prelude.{◌≡◌, bit_xor};
ghost use Rattle.word_polynomial.specs.Fits.{FitsThree};

/// The coefficients of an element c0 + c1 y + c2 y², each the word of an element of GF(2^64). Its number is
/// c0 + c1 2^64 + c2 2^128, and its order compares c0 first.
#[derive(Clone, Copy, Debug, PartialEq, Eq, PartialOrd, Ord, Hash)]
pub struct Triple {
    pub c0: u64,
    pub c1: u64,
    pub c2: u64,
    ghost in_range: { FitsThree c0 c1 c2 },
}

impl Triple {
    ghost use Rattle.word_polynomial.specs.Triple.{triple_number};

    /// The words of an element of GF(2^64): its word, and two zeros.
    #[inline]
    pub fn of_low(c0: u64) -> Triple
        ensures { triple_number result ≡ c0 }
    {
        Triple { c0, c1: 0, c2: 0 }
    }

    /// The words of the sum of two elements.
    #[inline]
    pub fn xor(self, other: Triple) -> Triple
        ensures { triple_number result ≡ bit_xor (triple_number self) (triple_number other) }
    {
        Triple {
            c0: self.c0 ^ other.c0,
            c1: self.c1 ^ other.c1,
            c2: self.c2 ^ other.c2,
        }
    }
}
