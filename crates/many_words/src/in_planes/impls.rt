// Written by scripts/make_impls.py; do not edit.
// The levels of 16 to 128 bits by their planes of bytes, thirty-two words at once, and by the multiples of a scalar. Those of a level
// are made of those of the level below.
ghost use Rattle.std.proofs.Common.{lit≤};
ghost use Rattle.many_words.specs.lemmas.Places.{level_in_planes};

use super::FieldInPlanes;
use additive_transforms::{ByteMultiples, HalfMultiples, Pair};
use field_base::Holds;
use std::simd::prelude::*;
use word_tower::{Bits16, Bits32, Bits64, Bits128, Tower};

type Planes8 = u8x32;

type Multiples8 = ByteMultiples;

type Planes16 = Pair<Planes8>;

type Multiples16 = HalfMultiples<Multiples8>;

type Planes32 = Pair<Planes16>;

type Multiples32 = HalfMultiples<Multiples16>;

type Planes64 = Pair<Planes32>;

type Multiples64 = HalfMultiples<Multiples32>;

type Planes128 = Pair<Planes64>;

type Multiples128 = HalfMultiples<Multiples64>;

impl FieldInPlanes<u16, u16> for Tower<Bits16> {
    type Multiples = Multiples16;

    type Vectors = Planes16;

    ghost level_law = { level_in_planes 1 (lit≤ tt) };
}

impl FieldInPlanes<u32, u32> for Tower<Bits32> {
    type Multiples = Multiples32;

    type Vectors = Planes32;

    ghost level_law = { level_in_planes 2 (lit≤ tt) };
}

impl FieldInPlanes<u64, u64> for Tower<Bits64> {
    type Multiples = Multiples64;

    type Vectors = Planes64;

    ghost level_law = { level_in_planes 3 (lit≤ tt) };
}

impl<W: Holds<u128>> FieldInPlanes<u128, W> for Tower<Bits128> {
    type Multiples = Multiples128;

    type Vectors = Planes128;

    ghost level_law = { level_in_planes 4 (lit≤ tt) };
}
