// Machine words as rows of bits.
ghost use Rattle.std.specs.Prelude.{◌≡◌, ◌↔◌, ◌<◌, ◌≤◌, ◌-◌, ◌*◌, ◌/◌, ◌%◌, ◌^◌, ℕ, IsTrue, bit_and, bit_or, bit_xor, count_ones};
ghost use Rattle.std.specs.Mem.{FitsInMemory};
ghost use Rattle.packed_lanes.specs.Operators.{GivesNumber};

use crate::sealed::Sealed;
use rand::distr::SampleStandard;
use std::fmt::Debug;
use std::hash::Hash;
use std::ops::{BitAnd, BitOr, BitXor, Not, Shl, Shr};

/// A machine word as a row of bits: `u8`, `u16`, `u32` or `u64`. The operators are Rust's; a shift requires a distance
/// below `BITS`.
pub trait Word: Sealed
    + Copy
    + Debug
    + Default
    + PartialEq
    + Eq
    + Hash
    + SampleStandard
    + BitAnd<Self, Output = Self>
    + BitOr<Self, Output = Self>
    + BitXor<Self, Output = Self>
    + Not<Output = Self>
    + Shl<u32, Output = Self>
    + Shr<u32, Output = Self> {
    // The number of a word. A word has 2^`log_bits` bits.
    ghost number: { Self → ℕ };

    ghost log_bits: { ℕ };

    /// How many bits a word has.
    const BITS: u32;

    ghost BITS: { ℕ };

    /// The word whose bits are all 0.
    const ZERO: Self;

    ghost ZERO: { Self };

    /// The word whose bits are all 1.
    const ONES: Self;

    ghost ONES: { Self };

    /// How many bits of the word are set.
    fn count_ones(self) -> u32
        ensures { result ≡ count_ones (number self) }
    {
        u64::count_ones(self.to_u64())
    }

    /// The number of the word, which is below 2^`BITS`.
    fn to_u64(self) -> u64
        ensures value { result ≡ number self }
        ensures fits { number self < 2 ^ BITS };

    /// The word of the low bits of `n`: bits above the word are dropped.
    fn from_u64(n: u64) -> Self
        ensures { number result ≡ n % 2 ^ BITS };

    // The bits of a word, and the parts of that. A word takes few bytes, as the elements of a slice must.
    ghost sizes_law: { (BITS ≡ 2 ^ log_bits) × (BITS ≤ 64) × (BITS ≡ 8 * (BITS / 8)) × FitsInMemory Self.row };

    ghost bits_law: { BITS ≡ 2 ^ log_bits } = { sizes_law.0 };

    ghost narrow_law: { BITS ≤ 64 } = { sizes_law.1 };

    ghost bytes_law: { BITS ≡ 8 * (BITS / 8) } = { sizes_law.2 };

    ghost room_law: { FitsInMemory Self.row } = { sizes_law.3 };

    // The numbers of words, and the parts of that.
    ghost numbers_law: { (number ZERO ≡ 0) × (number ONES ≡ 2 ^ BITS - 1) × ((x y : Self) → number x ≡ number y → x ≡ y) };

    ghost zero_number: { number ZERO ≡ 0 } = { numbers_law.0 };

    ghost ones_number: { number ONES ≡ 2 ^ BITS - 1 } = { numbers_law.1 };

    ghost same_law: { (x y : Self) → number x ≡ number y → x ≡ y } = { numbers_law.2 };

    ghost eq_law: { (x y : Self) → IsTrue (Self.PartialEq.eq x y) ↔ (number x ≡ number y) };

    ghost default_law: { (r : Self) → Self.is_default r → number r ≡ 0 };

    // Of each operator an impl gives that it can be called, and the number of its result.
    ghost on_and: { (x y : Self) → GivesNumber number (Self.can_bitand x y) (Self.bitand_gives x y) (bit_and (number x) (number y)) };

    ghost on_or: { (x y : Self) → GivesNumber number (Self.can_bitor x y) (Self.bitor_gives x y) (bit_or (number x) (number y)) };

    ghost on_xor: { (x y : Self) → GivesNumber number (Self.can_bitxor x y) (Self.bitxor_gives x y) (bit_xor (number x) (number y)) };

    ghost on_not: { (x : Self) → GivesNumber number (Self.can_not x) (Self.not_gives x) (2 ^ BITS - 1 - number x) };

    ghost on_shl: { (x : Self) (k : ℕ) →
        GivesNumber number (k < BITS → Self.can_shl x k) (Self.shl_gives x k) (number x * 2 ^ k % 2 ^ BITS) };

    ghost on_shr: { (x : Self) (k : ℕ) → GivesNumber number (k < BITS → Self.can_shr x k) (Self.shr_gives x k) (number x / 2 ^ k) };

    // The parts of those, one law an operator: a proof finds a law by its own shape.
    ghost can_and_law: { (x y : Self) → Self.can_bitand x y } = { λ x y. (on_and x y).0 };

    ghost and_law: { (x y r : Self) → Self.bitand_gives x y r → number r ≡ bit_and (number x) (number y) } = { λ x y. (on_and x y).1 };

    ghost can_or_law: { (x y : Self) → Self.can_bitor x y } = { λ x y. (on_or x y).0 };

    ghost or_law: { (x y r : Self) → Self.bitor_gives x y r → number r ≡ bit_or (number x) (number y) } = { λ x y. (on_or x y).1 };

    ghost can_xor_law: { (x y : Self) → Self.can_bitxor x y } = { λ x y. (on_xor x y).0 };

    ghost xor_law: { (x y r : Self) → Self.bitxor_gives x y r → number r ≡ bit_xor (number x) (number y) } = { λ x y. (on_xor x y).1 };

    ghost can_not_law: { (x : Self) → Self.can_not x } = { λ x. (on_not x).0 };

    ghost not_law: { (x r : Self) → Self.not_gives x r → number r ≡ 2 ^ BITS - 1 - number x } = { λ x. (on_not x).1 };

    ghost can_shl_law: { (x : Self) (k : ℕ) → k < BITS → Self.can_shl x k } = { λ x k. (on_shl x k).0 };

    ghost shl_law: { (x : Self) (k : ℕ) (r : Self) → Self.shl_gives x k r →
        number r ≡ number x * 2 ^ k % 2 ^ BITS } = { λ x k. (on_shl x k).1 };

    ghost can_shr_law: { (x : Self) (k : ℕ) → k < BITS → Self.can_shr x k } = { λ x k. (on_shr x k).0 };

    ghost shr_law: { (x : Self) (k : ℕ) (r : Self) → Self.shr_gives x k r → number r ≡ number x / 2 ^ k } = { λ x k. (on_shr x k).1 };
}
