// Vectors of words: a word, or two or four lanes. What is multiplied in lanes is written once over their trait, which a vector of any number
// of lanes has.
ghost use Rattle.std.specs.Prelude.{◌≡◌, ◌*◌, ◌/◌, ◌%◌, ◌^◌, ◌<◌, ℕ, List, bit_and, bit_xor, length, map, replicate};
ghost use Rattle.std.specs.Simd.Lanes.{Each1, zip2};
ghost use Rattle.std.proofs.Common.{Fits, w64};
ghost use Rattle.field_base.specs.Carryless.{carryless};
ghost use Rattle.word_carryless.specs.Masked.{AreClasses};

use crate::masked::{CLASS_0, CLASS_1, CLASS_2, CLASS_3};
use std::simd::Simd;
use std::simd::prelude::*;

/// A vector of words: any number of lanes.
pub trait WordVector: Copy {
    // The words of a vector, and how many they are.
    ghost words: { Self → List ℕ };

    ghost lanes: { ℕ };

    /// States how many words a vector has, and that they have 64 bits.
    fn holds_words(self)
        ensures count { length (words self) ≡ lanes }
        ensures fit { Each1 (Fits w64) (words self) };

    /// The word in each lane.
    fn filled(word: u64) -> Self
        ensures { words result ≡ replicate lanes word };

    /// The sums of the words in each lane.
    fn sum(self, other: Self) -> Self
        ensures { words result ≡ zip2 bit_xor (words self) (words other) };

    /// The integer products of the words in each lane, modulo 2^64.
    fn product(self, other: Self) -> Self
        ensures { words result ≡ zip2 (λ a b. a * b % 2 ^ 64) (words self) (words other) };

    /// The bits of each word at the places of the mask.
    fn masked(self, mask: u64) -> Self
        ensures { words result ≡ map (λ a. bit_and a mask) (words self) };

    /// Each word, shifted to the left by fewer than 64 places.
    fn up(self, places: u64) -> Self
        requires { places < 64 }
        ensures { words result ≡ map (λ a. a * 2 ^ places % 2 ^ 64) (words self) };

    /// Each word, shifted to the right by fewer than 64 places.
    fn down(self, places: u64) -> Self
        requires { places < 64 }
        ensures { words result ≡ map (λ a. a / 2 ^ places) (words self) };

    /// The low 64 bits of the carryless products of words, of which the bits of each class are given.
    ///
    /// Each pair of classes gives an integer product of the class of their sum:
    ///
    /// ```text
    /// class 0 <- (0,0) (1,3) (2,2) (3,1)        class 2 <- (0,2) (1,1) (2,0) (3,3)
    /// class 1 <- (0,1) (1,0) (2,3) (3,2)        class 3 <- (0,3) (1,2) (2,1) (3,0)
    /// ```
    fn multiply_classes(
        x0: Self,
        x1: Self,
        x2: Self,
        x3: Self,
        y0: Self,
        y1: Self,
        y2: Self,
        y3: Self,
    ) -> Self
        ensures { (left right : List ℕ) → Each1 (Fits w64) left → Each1 (Fits w64) right
            → AreClasses left (words x0) (words x1) (words x2) (words x3) → AreClasses right (words y0) (words y1) (words y2) (words y3)
            → words result ≡ zip2 (λ a b. carryless a b % 2 ^ 64) left right };
}

impl<const N: usize> WordVector for Simd<u64, N> {
    ghost words = { λ lanes. lanes };

    ghost lanes = { N };

    #[inline(always)]
    fn holds_words(self) {}

    #[inline(always)]
    fn filled(word: u64) -> Simd<u64, N> {
        Simd::splat(word)
    }

    #[inline(always)]
    fn sum(self, other: Simd<u64, N>) -> Simd<u64, N> {
        self ^ other
    }

    #[inline(always)]
    fn product(self, other: Simd<u64, N>) -> Simd<u64, N> {
        self * other
    }

    #[inline(always)]
    fn masked(self, mask: u64) -> Simd<u64, N> {
        self & Simd::splat(mask)
    }

    #[inline(always)]
    fn up(self, places: u64) -> Simd<u64, N> {
        self << Simd::splat(places)
    }

    #[inline(always)]
    fn down(self, places: u64) -> Simd<u64, N> {
        self >> Simd::splat(places)
    }

    #[inline(always)]
    fn multiply_classes(
        x0: Simd<u64, N>,
        x1: Simd<u64, N>,
        x2: Simd<u64, N>,
        x3: Simd<u64, N>,
        y0: Simd<u64, N>,
        y1: Simd<u64, N>,
        y2: Simd<u64, N>,
        y3: Simd<u64, N>,
    ) -> Simd<u64, N> {
        let z0 = (x0 * y0) ^ (x1 * y3) ^ (x2 * y2) ^ (x3 * y1);
        let z1 = (x0 * y1) ^ (x1 * y0) ^ (x2 * y3) ^ (x3 * y2);
        let z2 = (x0 * y2) ^ (x1 * y1) ^ (x2 * y0) ^ (x3 * y3);
        let z3 = (x0 * y3) ^ (x1 * y2) ^ (x2 * y1) ^ (x3 * y0);
        (z0 & Simd::splat(CLASS_0))
            ^ (z1 & Simd::splat(CLASS_1))
            ^ (z2 & Simd::splat(CLASS_2))
            ^ (z3 & Simd::splat(CLASS_3))
    }
}
