// Products of one value after another by one scalar, in lanes. The scalar and its companion, the scalar times x^64, stand in the two
// lanes of a vector, and so do the words l and h of a value, from the lowest on:
//
//     s (l + x^64 h) = s l + (s x^64) h
//
// Scalar and companion are split into classes of bits once. A product of two double words then takes four products of words, two of them
// at once, and one fold, since it has three words.
ghost use Rattle.std.specs.Prelude.{◌≡◌, ℕ, ◌^◌, ◌<◌, List, bit_xor};
ghost use Rattle.std.specs.Simd.Lanes.{Each1, zip2};
ghost use Rattle.word_carryless.specs.DoubleWords.{high_halves, low_halves, sums_of_halves};
ghost use Rattle.word_carryless.specs.Masked.{AreClasses};
ghost use Rattle.ghash_slices.specs.SplitWords.{high_words_of, low_words_of, remainder_at};

use crate::multiples::times_power;
use crate::scalar_products::ScalarProducts;
use std::simd::prelude::*;
use word_carryless::{
    Classes, WordVector, halves_of, join_128, multiply_halves, spill, split_128, times_tail,
};

/// A scalar and its companion, split into classes of bits: the low words of both, and the high words.
#[derive(Drop)]
pub(crate) struct SplitScalar {
    scalar: u128,
    low: (Classes<u64x2>, Classes<u64x2>, Classes<u64x2>),
    high: (Classes<u64x2>, Classes<u64x2>, Classes<u64x2>),
    ghost fits: { scalar < 2 ^ 128 },
    ghost low_low: { AreClasses (low_halves (low_words_of scalar)) low.0.0 low.0.1 low.0.2 low.0.3 },
    ghost low_high: { AreClasses (low_halves (high_halves (low_words_of scalar))) low.1.0 low.1.1 low.1.2 low.1.3 },
    ghost low_both: { AreClasses (low_halves (sums_of_halves (low_words_of scalar))) low.2.0 low.2.1 low.2.2 low.2.3 },
    ghost high_low: { AreClasses (low_halves (high_words_of scalar)) high.0.0 high.0.1 high.0.2 high.0.3 },
    ghost high_high: { AreClasses (low_halves (high_halves (high_words_of scalar))) high.1.0 high.1.1 high.1.2 high.1.3 },
    ghost high_both: { AreClasses (low_halves (sums_of_halves (high_words_of scalar))) high.2.0 high.2.1 high.2.2 high.2.3 },
}

impl SplitScalar {
    /// The scalar and its companion.
    pub(crate) fn new(scalar: u128) -> SplitScalar
        ensures { result.scalar ≡ scalar }
    {
        let (low, high) = split_128(scalar);
        let (companion_low, companion_high) = split_128(times_power(scalar, 64));
        SplitScalar {
            scalar,
            low: halves_of(u64x2::from_array([low, companion_low])),
            high: halves_of(u64x2::from_array([high, companion_high])),
        }
    }
}

impl ScalarProducts for SplitScalar {
    ghost scalar = { λ split. split.scalar };

    #[inline(never)]
    fn product(&self, value: u128) -> u128 {
        let (low, high) = split_128(value);
        let words = halves_of(u64x2::from_array([low, high]));
        let (w0, above) = multiply_halves(narrow_halves(self.low), words);
        let (below, w2) = multiply_halves(narrow_halves(self.high), words);
        sum_of_lanes(w0, above ^ below, w2)
    }
}

// The halves, unchanged. The mask tells the compiler that halves read from memory have 32 bits, and costs no instruction.
#[inline(always)]
fn narrow_halves(
    halves: (Classes<u64x2>, Classes<u64x2>, Classes<u64x2>),
) -> (Classes<u64x2>, Classes<u64x2>, Classes<u64x2>)
    ensures low { (words : List ℕ) → AreClasses (low_halves words) halves.0.0 halves.0.1 halves.0.2 halves.0.3
        → AreClasses (low_halves words) result.0.0 result.0.1 result.0.2 result.0.3 }
    ensures high { (words : List ℕ) → AreClasses (low_halves words) halves.1.0 halves.1.1 halves.1.2 halves.1.3
        → AreClasses (low_halves words) result.1.0 result.1.1 result.1.2 result.1.3 }
    ensures both { (words : List ℕ) → AreClasses (low_halves words) halves.2.0 halves.2.1 halves.2.2 halves.2.3
        → AreClasses (low_halves words) result.2.0 result.2.1 result.2.2 result.2.3 }
{
    (narrow(halves.0), narrow(halves.1), narrow(halves.2))
}

#[inline(always)]
fn narrow(classes: Classes<u64x2>) -> Classes<u64x2>
    ensures { (words : List ℕ) → AreClasses (low_halves words) classes.0 classes.1 classes.2 classes.3
        → AreClasses (low_halves words) result.0 result.1 result.2 result.3 }
{
    (
        classes.0.masked(0xffff_ffff),
        classes.1.masked(0xffff_ffff),
        classes.2.masked(0xffff_ffff),
        classes.3.masked(0xffff_ffff),
    )
}

// The sum of the remainders of both lanes, which have three words each, the lowest first.
#[inline(always)]
fn sum_of_lanes(w0: u64x2, w1: u64x2, w2: u64x2) -> u128
    ensures { result ≡ bit_xor (remainder_at w0 w1 w2 0) (remainder_at w0 w1 w2 1) }
{
    let lows = (w0 ^ times_tail(w2)).to_array();
    let highs = (w1 ^ spill(w2)).to_array();
    join_128(lows[0] ^ lows[1], highs[0] ^ highs[1])
}
