// Written by scripts/make_impls.py; do not edit.
// Which level lies in which.
ghost use Rattle.std.specs.Prelude.{◌≡◌, ◌<◌, ◌≤◌, ◌^◌};
ghost use Rattle.std.proofs.Common.{lit≤};

use crate::levels::{Bits2, Bits8, Bits16, Bits32, Bits64, Bits128};
use crate::subfields::LiesIn;
use crate::tower::Tower;
use field_base::{Contains, Joins, Unsigned};

impl<S: Unsigned, L: LiesIn<u16, Tower<Bits16>, S>> Contains<u16, S, Tower<L>> for Tower<Bits16> {
    ghost image = { λ n. n };

    #[inline]
    fn embed(x: S) -> u16 {
        u16::of_u128(x.to_u128())
    }
}

impl<S: Unsigned, L: LiesIn<u32, Tower<Bits32>, S>> Contains<u32, S, Tower<L>> for Tower<Bits32> {
    ghost image = { λ n. n };

    #[inline]
    fn embed(x: S) -> u32 {
        u32::of_u128(x.to_u128())
    }
}

impl<S: Unsigned, L: LiesIn<u64, Tower<Bits64>, S>> Contains<u64, S, Tower<L>> for Tower<Bits64> {
    ghost image = { λ n. n };

    #[inline]
    fn embed(x: S) -> u64 {
        u64::of_u128(x.to_u128())
    }
}

impl<S: Unsigned, L: LiesIn<u128, Tower<Bits128>, S>> Contains<u128, S, Tower<L>>
    for Tower<Bits128> {
    ghost image = { λ n. n };

    #[inline]
    fn embed(x: S) -> u128 {
        u128::of_u128(x.to_u128())
    }
}

impl LiesIn<u16, Tower<Bits16>, u8> for Bits8 {
    ghost lies_law = { lit≤ tt };
}

impl LiesIn<u32, Tower<Bits32>, u8> for Bits8 {
    ghost lies_law = { lit≤ tt };
}

impl LiesIn<u32, Tower<Bits32>, u16> for Bits16 {
    ghost lies_law = { lit≤ tt };
}

impl LiesIn<u64, Tower<Bits64>, u8> for Bits8 {
    ghost lies_law = { lit≤ tt };
}

impl LiesIn<u64, Tower<Bits64>, u16> for Bits16 {
    ghost lies_law = { lit≤ tt };
}

impl LiesIn<u64, Tower<Bits64>, u32> for Bits32 {
    ghost lies_law = { lit≤ tt };
}

impl LiesIn<u128, Tower<Bits128>, u8> for Bits8 {
    ghost lies_law = { lit≤ tt };
}

impl LiesIn<u128, Tower<Bits128>, u16> for Bits16 {
    ghost lies_law = { lit≤ tt };
}

impl LiesIn<u128, Tower<Bits128>, u32> for Bits32 {
    ghost lies_law = { lit≤ tt };
}

impl LiesIn<u128, Tower<Bits128>, u64> for Bits64 {
    ghost lies_law = { lit≤ tt };
}

impl LiesIn<u128, Tower<Bits128>, u8> for Bits2 {
    ghost lies_law = { lit≤ tt };
}

// Where the smaller level is on the left, the result lies in the larger one.
impl Joins<u8, u16, Tower<Bits16>> for Tower<Bits8> {
    type Upper = u16;

    type Field = Tower<Bits16>;
}

impl Joins<u8, u32, Tower<Bits32>> for Tower<Bits8> {
    type Upper = u32;

    type Field = Tower<Bits32>;
}

impl Joins<u16, u32, Tower<Bits32>> for Tower<Bits16> {
    type Upper = u32;

    type Field = Tower<Bits32>;
}

impl Joins<u8, u64, Tower<Bits64>> for Tower<Bits8> {
    type Upper = u64;

    type Field = Tower<Bits64>;
}

impl Joins<u16, u64, Tower<Bits64>> for Tower<Bits16> {
    type Upper = u64;

    type Field = Tower<Bits64>;
}

impl Joins<u32, u64, Tower<Bits64>> for Tower<Bits32> {
    type Upper = u64;

    type Field = Tower<Bits64>;
}

impl Joins<u8, u128, Tower<Bits128>> for Tower<Bits8> {
    type Upper = u128;

    type Field = Tower<Bits128>;
}

impl Joins<u16, u128, Tower<Bits128>> for Tower<Bits16> {
    type Upper = u128;

    type Field = Tower<Bits128>;
}

impl Joins<u32, u128, Tower<Bits128>> for Tower<Bits32> {
    type Upper = u128;

    type Field = Tower<Bits128>;
}

impl Joins<u64, u128, Tower<Bits128>> for Tower<Bits64> {
    type Upper = u128;

    type Field = Tower<Bits128>;
}

impl Joins<u8, u128, Tower<Bits128>> for Tower<Bits2> {
    type Upper = u128;

    type Field = Tower<Bits128>;
}
