// Sixteen numbers in planes of bytes, as tables that are looked up by four bits of each byte of a vector, and sums of such look-ups: linear
// maps of numbers in planes.
ghost use Rattle.std.specs.Prelude.{◌≡◌, ℕ, ◌*◌, ◌/◌, ◌%◌, ◌^◌, ◌<◌, bit_xor, length, refl, slice_index};
ghost use Rattle.many_words.specs.Maps.{AreTables};

use additive_transforms::{ByteMultiples, HalfMultiples, Pair, Planes};
use std::simd::prelude::*;
use word_tables::ByteVector;

/// Sixteen numbers in planes.
pub(crate) trait Entries<M>: Planes<M> {
    /// The numbers 0.
    fn zeros() -> Self
        ensures { (l : ℕ) → l < 16 → Self.Planes.lane result l ≡ 0 };

    /// The entry at the low four bits of each byte.
    fn low_entries(&self, bytes: u8x16) -> Self
        ensures { (l : ℕ) → l < 16 → Self.Planes.lane result l ≡ Self.Planes.lane self.now (slice_index bytes l % 16) };

    /// The entry at the high four bits of each byte.
    fn high_entries(&self, bytes: u8x16) -> Self
        ensures { (l : ℕ) → l < 16 → Self.Planes.lane result l ≡ Self.Planes.lane self.now (slice_index bytes l / 16) };

    ghost sixteen_law: { Self.Planes.lanes ≡ 16 };
}

impl Entries<ByteMultiples> for u8x16 {
    #[inline(always)]
    fn zeros() -> u8x16 {
        u8x16::splat(0)
    }

    #[inline(always)]
    fn low_entries(&self, bytes: u8x16) -> u8x16 {
        <u8x16 as ByteVector>::low_entries(bytes, *self)
    }

    #[inline(always)]
    fn high_entries(&self, bytes: u8x16) -> u8x16 {
        <u8x16 as ByteVector>::high_entries(bytes, *self)
    }

    ghost sixteen_law = { refl };
}

impl<M, P: Entries<M>> Entries<HalfMultiples<M>> for Pair<P> {
    #[inline(always)]
    #[tactic(auto, unfolding(additive_transforms::specs::Halves::lane_of_halves))]
    fn zeros() -> Pair<P> {
        Pair {
            low: P::zeros(),
            high: P::zeros(),
        }
    }

    #[inline(always)]
    #[tactic(auto, unfolding(additive_transforms::specs::Halves::lane_of_halves))]
    fn low_entries(&self, bytes: u8x16) -> Pair<P> {
        Pair {
            low: self.low.low_entries(bytes),
            high: self.high.low_entries(bytes),
        }
    }

    #[inline(always)]
    #[tactic(auto, unfolding(additive_transforms::specs::Halves::lane_of_halves))]
    fn high_entries(&self, bytes: u8x16) -> Pair<P> {
        Pair {
            low: self.low.high_entries(bytes),
            high: self.high.high_entries(bytes),
        }
    }

    ghost sixteen_law = { P.sixteen_law };
}

/// Numbers in planes, or their parts, whose images are summed by the tables `S` of their digits to base 16.
pub(crate) trait Digits<M, N, S: Entries<N>>: Planes<M> {
    /// Adds to each sum the image of the number in its lane. There are two tables for each byte of a number.
    fn add_images(&self, tables: &[S], sums: &mut S)
        requires { length tables.now ≡ 2 * 2 ^ Self.Planes.depth }
        ensures { (f : ℕ → ℕ) (from : ℕ) → AreTables S.Planes.lane f from tables.now → (l : ℕ) → l < 16
            → S.Planes.lane sums.new l ≡ bit_xor (S.Planes.lane sums.old l) (f (Self.Planes.lane self.now l * 2 ^ from)) };
}

impl<N, S: Entries<N>> Digits<ByteMultiples, N, S> for u8x16 {
    #[inline(always)]
    fn add_images(&self, tables: &[S], sums: &mut S) {
        let bytes = *self;
        bytes.holds_bytes();
        sums.add(&tables[0].low_entries(bytes));
        sums.add(&tables[1].high_entries(bytes));
    }
}

impl<M, N, S: Entries<N>, P: Digits<M, N, S>> Digits<HalfMultiples<M>, N, S> for Pair<P> {
    #[inline(always)]
    fn add_images(&self, tables: &[S], sums: &mut S) {
        let (low, high) = tables.split_at(tables.len() / 2);
        self.low.add_images(low, sums);
        self.high.add_images(high, sums);
    }
}
