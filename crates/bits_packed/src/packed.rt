// Packed bits.
ghost use Rattle.std.specs.Prelude.{◌≡◌, ◌<◌, ◌≤◌, ◌+◌, ◌-◌, ◌*◌, ◌/◌, ◌%◌, ◌^◌, IsTrue, count_ones, ⊤};
ghost use Rattle.std.specs.Int.{bit_at};
ghost use Rattle.field_base.specs.Bit.{bit_number};
ghost use Rattle.bits_packed.specs.Lanes.{IsWithLane};

mod bits;
mod draws;
mod lanes;
mod operators;
mod parts;
mod ring;
mod text;
mod transpose;

pub use crate::packed::lanes::Lanes;
use field_base::Gf2;
use field_base::traits::TowerLevel;
use packed_lanes::{M128, M256, M512, Underlier, Word, count_bits, field, with_field};
use std::alloc::AllocError;

/// Lanes of GF(2), packed into a word or a block of words: lane i is bit i of its number, so bit i modulo W of word i
/// divided by W, for words of W bits. Sums and products go lane by lane.
#[derive_where(PartialEq, Eq, Hash; U)]
pub struct PackedGf2<U: Underlier> {
    bits: U,
    ghost in_range: { IsTrue (U.is_whole bits) },
}

/// 8 lanes.
pub type PackedGf2x8 = PackedGf2<u8>;

/// 16 lanes.
pub type PackedGf2x16 = PackedGf2<u16>;

/// 32 lanes.
pub type PackedGf2x32 = PackedGf2<u32>;

/// 64 lanes.
pub type PackedGf2x64 = PackedGf2<u64>;

/// 128 lanes.
pub type PackedGf2x128 = PackedGf2<M128>;

/// 256 lanes.
pub type PackedGf2x256 = PackedGf2<M256>;

/// 512 lanes.
pub type PackedGf2x512 = PackedGf2<M512>;

impl<U: Underlier> Clone for PackedGf2<U> {
    ghost is_clone = { λ x y. y.bits ≡ x.bits };

    ghost is_infallible = { λ _. ⊤ };

    fn clone(&self) -> Result<PackedGf2<U>, AllocError> {
        Ok(PackedGf2 { bits: self.bits })
    }
}

impl<U: Underlier> Copy for PackedGf2<U> {}

// The packed bits behind a reference. `*x` at a struct with a type parameter gets no generated proof.
#[inline]
fn value<U: Underlier>(x: &PackedGf2<U>) -> PackedGf2<U>
    ensures { result.bits ≡ x.now.bits }
{
    PackedGf2 { bits: x.bits }
}

// The index of the word that a lane lies in, and of its bit there.
#[inline]
fn place_of<U: Underlier>(lane: usize) -> (usize, u32)
    requires { lane < U.BITS }
    ensures word { result.0 ≡ lane / U.Word.BITS }
    ensures inside { result.0 < U.WORD_COUNT }
    ensures bit { result.1 ≡ lane % U.Word.BITS }
    ensures fits { result.1 + 1 ≤ U.Word.BITS }
{
    let word_bits = <U::Word as Word>::BITS as usize;
    let index = lane / word_bits;
    let place = (lane % word_bits) as u32;
    (index, place)
}

impl<U: Underlier> PackedGf2<U> {
    /// How many lanes there are.
    pub const WIDTH: usize = U::BITS;

    /// The packed bits of a word or block: lane i is its bit i.
    #[inline]
    pub fn new(bits: U) -> PackedGf2<U>
        ensures { result.bits ≡ bits }
    {
        PackedGf2 {
            bits: bits.checked(),
        }
    }

    /// The word or block, whose bit i is lane i.
    #[inline]
    pub fn to_bits(self) -> U
        ensures { result ≡ self.bits }
    {
        self.bits
    }

    /// Lane `lane`. Requires a lane below `WIDTH`.
    #[inline]
    pub fn get(&self, lane: usize) -> Gf2
        requires { lane < U.BITS }
        ensures { bit_number result ≡ bit_at (U.number self.now.bits) lane }
    {
        let (index, place) = place_of::<U>(lane);
        let word = self.bits.word(index);
        let bit = field(word, place, 1);
        Gf2::from_repr(bit.to_u64() as u8)
    }

    /// Writes lane `lane` and keeps the others. Requires a lane below `WIDTH`.
    #[inline]
    pub fn set(&mut self, lane: usize, value: Gf2)
        requires { lane < U.BITS }
        ensures { IsWithLane U.BITS (U.number self.old.bits) lane (bit_number value) (U.number self.new.bits) }
    {
        let (index, place) = place_of::<U>(lane);
        let word = self.bits.word(index);
        let bit = <U::Word as Word>::from_u64(u64::from(value.to_repr()));
        self.bits.set_word(index, with_field(word, place, 1, bit));
    }

    /// The value in every lane.
    #[inline]
    pub fn broadcast(value: Gf2) -> PackedGf2<U>
        ensures { U.number result.bits ≡ bit_number value * (2 ^ U.BITS - 1) }
    {
        if value.to_repr() == 1 {
            PackedGf2 { bits: U::ONES }
        } else {
            PackedGf2 { bits: U::ZERO }
        }
    }

    /// How many lanes are 1.
    #[inline]
    pub fn count_ones(&self) -> u32
        ensures { result ≡ count_ones (U.number self.now.bits) }
    {
        count_bits(&self.bits)
    }

    /// The inverse of each lane, and 0 for 0: the packed bits themselves.
    #[inline]
    pub fn invert_or_zero(self) -> PackedGf2<U>
        ensures { result.bits ≡ self.bits }
    {
        self
    }
}
