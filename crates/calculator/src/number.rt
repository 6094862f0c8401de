// Numbers as wide as the widest element.
ghost use Rattle.std.specs.Prelude.{◌≡◌, ◌≤◌, ◌<◌, ◌*◌, ◌+◌, ◌^◌, fold, length, nat_lt};
ghost use Rattle.std.specs.Int.{bytes_high_first};

/// A number below 2^192: its bits from 128 on, and those below.
#[derive(Clone, Copy)]
pub(crate) struct Number {
    pub(crate) high: u64,
    pub(crate) low: u128,
}

impl Number {
    ghost use Rattle.calculator.specs.Number.{wide_value};

    /// The number of a word.
    pub(crate) fn of_word(word: u128) -> Number
        ensures { wide_value result ≡ word }
    {
        Number { high: 0, low: word }
    }

    /// The word of a number of so few bits.
    pub(crate) fn to_word(self, bits: u32) -> u128
        requires few { bits ≤ 128 }
        requires fits { wide_value self < 2 ^ bits }
        ensures { result ≡ wide_value self }
    {
        self.low
    }

    /// The number of at most 24 bytes, the highest first.
    pub(crate) fn from_bytes(bytes: &[u8]) -> Number
        requires { length bytes.now ≤ 24 }
        ensures { wide_value result ≡ fold (λ n byte. n * 256 + byte) 0 bytes.now }
    {
        let above = bytes.len().saturating_sub(16);
        Number {
            high: number_of_bytes(&bytes[..above]) as u64,
            low: number_of_bytes(&bytes[above..]),
        }
    }

    /// All 24 bytes of the number, the highest first.
    pub(crate) fn to_bytes(self) -> [u8; 24]
        ensures { result ≡ bytes_high_first 24 (wide_value self) }
    {
        let mut bytes = [0; 24];
        bytes[..8].copy_from_slice(&self.high.to_be_bytes());
        bytes[8..].copy_from_slice(&self.low.to_be_bytes());
        bytes
    }

    /// Whether the number has at most so many bits. A shift leaves the highest of them as well, since all bits of a word cannot
    /// be shifted out.
    #[tactic(auto, using(crate::proofs::NumberLemmas::fits_low, crate::proofs::NumberLemmas::fits_not, crate::proofs::NumberLemmas::fits_high))]
    pub(crate) fn fits(self, bits: usize) -> bool
        requires some { 0 < bits }
        requires few { bits ≤ 192 }
        ensures { result ≡ nat_lt (wide_value self) (2 ^ bits) }
    {
        if bits <= 128 {
            self.high == 0 && self.low >> (bits - 1) < 2
        } else {
            self.high >> (bits - 129) < 2
        }
    }
}

// The number of at most 16 bytes, the highest first.
fn number_of_bytes(bytes: &[u8]) -> u128
    requires { length bytes.now ≤ 16 }
    ensures number { result ≡ fold (λ n byte. n * 256 + byte) 0 bytes.now }
    ensures fits { result < 256 ^ length bytes.now }
{
    let mut number = 0;
    for byte in bytes {
        number = number * 256 + u128::from(*byte);
    }
    number
}
