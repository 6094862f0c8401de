// Linear maps of bytes in lanes, by two tables of sixteen entries: the values of the map at the numbers below 16, and at 16 times
// these. A table is one vector, so that a look-up is one instruction on x86-64-v2 and no address depends on the bytes.
ghost use Rattle.std.specs.Prelude.{◌≡◌, [], ◌∷◌, drop, map, take};
ghost use Rattle.field_base.specs.LinearMaps.{linear_image};
ghost use Rattle.word_tables.specs.Nibbles.{HasImages};

use crate::{ByteVector, entry_sums};
use std::simd::prelude::*;

// The numbers below 16 that have bit 0, 1, 2 or 3, as masks.
const HAVE_BIT_0: [u8; 16] = [
    0, 255, 0, 255, 0, 255, 0, 255, 0, 255, 0, 255, 0, 255, 0, 255,
];

const HAVE_BIT_1: [u8; 16] = [
    0, 0, 255, 255, 0, 0, 255, 255, 0, 0, 255, 255, 0, 0, 255, 255,
];

const HAVE_BIT_2: [u8; 16] = [
    0, 0, 0, 0, 255, 255, 255, 255, 0, 0, 0, 0, 255, 255, 255, 255,
];

const HAVE_BIT_3: [u8; 16] = [
    0, 0, 0, 0, 0, 0, 0, 0, 255, 255, 255, 255, 255, 255, 255, 255,
];

/// The sums of four images: entry n is the sum of those at the set bits of n.
#[inline(always)]
pub(crate) fn sums_of_four(a: u8, b: u8, c: u8, d: u8) -> u8x16
    ensures { HasImages (a ∷ b ∷ c ∷ d ∷ []) result }
{
    (u8x16::splat(a) & u8x16::from_array(HAVE_BIT_0))
        ^ (u8x16::splat(b) & u8x16::from_array(HAVE_BIT_1))
        ^ (u8x16::splat(c) & u8x16::from_array(HAVE_BIT_2))
        ^ (u8x16::splat(d) & u8x16::from_array(HAVE_BIT_3))
}

/// The images of the bytes of a vector, by the tables of the first four images and of the others.
#[inline(always)]
pub(crate) fn images_in_lanes<V: ByteVector>(
    images: &[u8; 8],
    low: u8x16,
    high: u8x16,
    bytes: V,
) -> V
    requires low { HasImages (take 4 images.now) low }
    requires high { HasImages (drop 4 images.now) high }
    ensures { V.bytes result ≡ map (linear_image images.now) (V.bytes bytes) }
{
    bytes.holds_bytes();
    entry_sums(low, high, bytes)
}
