// Slices of words in planes: as many words as a vector has bytes, of which plane i has byte i of each.
//
// Vectors of words are read, and the even and the odd ones of their units (bytes, then pairs of bytes, and so on) are taken apart until
// each vector has one byte of each word. Written back, they are woven again.
ghost use Rattle.std.specs.Prelude.{◌≡◌, ◌+◌, ◌*◌, ◌%◌, ◌^◌, ◌≤◌, length, map, refl};
ghost use Rattle.additive_transforms.specs.Units.{ArePut, AreUnits, AreUnwoven};

use crate::multiples::{ByteMultiples, HalfMultiples};
use crate::pair::Pair;
use crate::planes::Planes;
use crate::word_bytes::WordBytes;
use field_base::Stored;
use std::simd::prelude::*;
use word_tables::{ByteVector, halves, joined};

/// Planes that are read from a slice of words and written to it. Their elements are words or their parts: a word has as many bytes or more.
pub trait WordPlanes<R: Stored, W: WordBytes<R>, M>: Planes<M> {
    /// The elements of `count` words from `start` on.
    fn gather(words: &[W], start: usize, count: usize) -> Self
        requires count { count * 2 ^ W.size ≡ Self.Planes.lanes * 2 ^ Self.Planes.depth }
        requires inside { start + count ≤ length words.now }
        ensures { AreUnits Self.Planes.depth W.size start Self.Planes.lanes (Self.Planes.lane result) (map W.Holds.number words.now) };

    /// Writes the elements over those of `count` words from `start` on.
    fn scatter(self, words: &mut [W], start: usize, count: usize)
        requires count { count * 2 ^ W.size ≡ Self.Planes.lanes * 2 ^ Self.Planes.depth }
        requires inside { start + count ≤ length words.old }
        ensures length { length words.new ≡ length words.old }
        ensures words { ArePut Self.Planes.depth W.size start Self.Planes.lanes (Self.Planes.lane self) (map W.Holds.number words.old)
            (map W.Holds.number words.new) };

    /// The even and the odd ones of the elements of two.
    fn unwoven(first: Self, second: Self) -> (Self, Self)
        ensures { AreUnwoven Self.Planes.lanes (Self.Planes.lane first) (Self.Planes.lane second) (Self.Planes.lane result.0)
            (Self.Planes.lane result.1) };

    /// Those of which these are the even and the odd ones.
    fn woven(evens: Self, odds: Self) -> (Self, Self)
        ensures { AreUnwoven Self.Planes.lanes (Self.Planes.lane result.0) (Self.Planes.lane result.1) (Self.Planes.lane evens)
            (Self.Planes.lane odds) };

    ghost whole_law: { Self.Planes.lanes % 16 ≡ 0 };
}

impl<R: Stored, W: WordBytes<R>> WordPlanes<R, W, ByteMultiples> for u8x16 {
    #[inline(always)]
    fn gather(words: &[W], start: usize, count: usize) -> u8x16 {
        W::read_bytes(words, start)
    }

    #[inline(always)]
    fn scatter(self, words: &mut [W], start: usize, count: usize) {
        W::write_bytes(words, start, self);
    }

    #[inline(always)]
    fn unwoven(first: u8x16, second: u8x16) -> (u8x16, u8x16) {
        first.deinterleave(second)
    }

    #[inline(always)]
    fn woven(evens: u8x16, odds: u8x16) -> (u8x16, u8x16) {
        evens.interleave(odds)
    }

    ghost whole_law = { refl };
}

impl<R: Stored, W: WordBytes<R>> WordPlanes<R, W, ByteMultiples> for u8x32 {
    #[inline(always)]
    fn gather(words: &[W], start: usize, count: usize) -> u8x32 {
        let first = W::read_bytes(words, start);
        let second = W::read_bytes(words, start + count / 2);
        first.holds_bytes();
        joined(first, second)
    }

    #[inline(always)]
    fn scatter(self, words: &mut [W], start: usize, count: usize) {
        let (first, second) = halves(self);
        W::write_bytes(words, start, first);
        W::write_bytes(words, start + count / 2, second);
    }

    #[inline(always)]
    fn unwoven(first: u8x32, second: u8x32) -> (u8x32, u8x32) {
        first.deinterleave(second)
    }

    #[inline(always)]
    fn woven(evens: u8x32, odds: u8x32) -> (u8x32, u8x32) {
        evens.interleave(odds)
    }

    ghost whole_law = { refl };
}

impl<R: Stored, W: WordBytes<R>, M, P: WordPlanes<R, W, M>> WordPlanes<R, W, HalfMultiples<M>>
    for Pair<P> {
    #[inline(always)]
    fn gather(words: &[W], start: usize, count: usize) -> Pair<P> {
        let half = count / 2;
        let first = P::gather(words, start, half);
        let second = P::gather(words, start + half, half);
        let (low, high) = P::unwoven(first, second);
        Pair { low, high }
    }

    #[inline(always)]
    fn scatter(self, words: &mut [W], start: usize, count: usize) {
        let half = count / 2;
        let (first, second) = P::woven(self.low, self.high);
        first.scatter(words, start, half);
        second.scatter(words, start + half, half);
    }

    #[inline(always)]
    #[tactic(auto, unfolding(crate::specs::Halves::lane_of_halves))]
    fn unwoven(first: Pair<P>, second: Pair<P>) -> (Pair<P>, Pair<P>) {
        let (low, next_low) = P::unwoven(first.low, second.low);
        let (high, next_high) = P::unwoven(first.high, second.high);
        let next = Pair {
            low: next_low,
            high: next_high,
        };
        (Pair { low, high }, next)
    }

    #[inline(always)]
    #[tactic(auto, unfolding(crate::specs::Halves::lane_of_halves))]
    fn woven(evens: Pair<P>, odds: Pair<P>) -> (Pair<P>, Pair<P>) {
        let (low, next_low) = P::woven(evens.low, odds.low);
        let (high, next_high) = P::woven(evens.high, odds.high);
        let next = Pair {
            low: next_low,
            high: next_high,
        };
        (Pair { low, high }, next)
    }

    ghost whole_law = { P.whole_law };
}
