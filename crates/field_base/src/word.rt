// Words: what an element of a field is stored in.
ghost use prog.Memory.{size};
ghost use denote.Param.{layout};
ghost use Rattle.std.specs.Prelude.{◌≡◌, ◌↔◌, ◌<◌, ◌≤◌, ◌*◌, ◌%◌, ◌^◌, ℕ, IsTrue, bit_xor, map, slice_index};
ghost use Rattle.field_base.specs.Bit.{bit_number};

mod impls;

use crate::gf2::Gf2;
use std::fmt::Debug;
use std::hash::Hash;

/// What stores an element of a field: some number of bits, which stand for one number. Words of equal numbers are equal,
/// and their order and their hash are those of the word.
pub trait Stored: Copy + Debug + Ord + Hash {
    // The number of a word, and how many bits words have.
    ghost number: { Self → ℕ };

    ghost bits: { ℕ };

    // The word of the low bits of a number.
    ghost of_number: { ℕ → Self };

    ghost number_of: { (n : ℕ) → number (of_number n) ≡ n % 2 ^ bits };

    /// The word of the number 0.
    const ZERO: Self;

    ghost ZERO: { Self };

    /// The word of the number 1.
    const ONE: Self;

    ghost ONE: { Self };

    ghost zero_number: { number ZERO ≡ 0 };

    ghost one_number: { number ONE ≡ 1 };

    ghost same_law: { (x y : Self) → number x ≡ number y → x ≡ y };

    /// The exclusive or of both words, bit by bit.
    fn xor(self, other: Self) -> Self
        ensures { number result ≡ bit_xor (number self) (number other) };

    /// The word of the number `i`, which has to fit.
    fn of_index(i: usize) -> Self
        requires { i < 2 ^ bits }
        ensures { number result ≡ i };

    /// The word of the number 0 or 1 that the bit is.
    fn of_bit(bit: Gf2) -> Self
        ensures { number result ≡ bit_number bit }
    {
        if bit.is_set() { Self::ONE } else { Self::ZERO }
    }

    /// States that words have so many bits. It computes nothing.
    fn words_fit(words: &[Self])
        ensures { (p : ℕ) → slice_index (map number words.now) p < 2 ^ bits };

    ghost eq_law: { (x y : Self) → IsTrue (Self.PartialEq.eq x y) ↔ (number x ≡ number y) };

    // An array of up to 1,024 words can be a value.
    ghost room_law: { (n : ℕ) → n ≤ 1024 → n * size (layout Self.row) < 2 ^ 63 };
}

/// An unsigned integer of Rust as a word.
pub trait Unsigned: Stored {
    /// The word of the low bits of `n`: bits above the word are dropped.
    fn of_u128(n: u128) -> Self
        ensures { Self.number result ≡ n % 2 ^ Self.bits };

    /// The number of the word.
    fn to_u128(self) -> u128
        ensures { result ≡ Self.number self };
}
