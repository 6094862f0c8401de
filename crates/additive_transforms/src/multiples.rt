// The multiples of a scalar, by which elements are multiplied: of a byte by the halves of bytes, and of a wider scalar those of the three
// scalars by which halves are multiplied.
ghost use Rattle.std.specs.Prelude.{◌≡◌, ℕ, ◌+◌, ◌*◌, ◌<◌, ◌≤◌, length, slice_index};
ghost use Rattle.std.specs.Simd.Lanes.{chunk};
ghost use Rattle.field_base.specs.Tower.{root, tower_mul};
ghost use Rattle.additive_transforms.specs.Halves.{are_of_halves};
ghost use Rattle.additive_transforms.specs.Products.{AreMultiples};

mod literals;

use crate::multiples::literals::PRODUCTS;
use crate::pair::Pair;
use crate::plane_scalars::PlaneScalars;
use std::simd::prelude::*;

/// The products of a byte by 0 to 15, and by 0, 16, .., 240. They are vectors, so that a loop holds them in registers.
#[derive(Clone, Copy)]
pub struct ByteMultiples {
    pub(crate) low: u8x16,
    pub(crate) high: u8x16,
}

/// The multiples by which the halves of an element are multiplied: both, their sum, the low half, and the high half.
#[derive(Clone, Copy)]
pub struct HalfMultiples<M> {
    pub(crate) both: M,
    pub(crate) low: M,
    pub(crate) high: M,
}

/// The multiples of a byte.
#[inline]
pub(crate) fn multiples_8(scalar: u8) -> ByteMultiples
    ensures { AreMultiples result scalar }
{
    let start = 32 * scalar as usize;
    ByteMultiples {
        low: entries_at(&PRODUCTS, start),
        high: entries_at(&PRODUCTS, start + 16),
    }
}

/// The multiples of a scalar of 16 bits.
#[inline]
pub(crate) fn multiples_16(scalar: u16) -> HalfMultiples<ByteMultiples>
    ensures { are_of_halves 0 AreMultiples result scalar }
{
    <Pair<u8x16> as PlaneScalars<_>>::multiples(u128::from(scalar), 16)
}

/// The multiples of a scalar of 32 bits.
#[inline]
pub(crate) fn multiples_32(scalar: u32) -> HalfMultiples<HalfMultiples<ByteMultiples>>
    ensures { are_of_halves 1 (are_of_halves 0 AreMultiples) result scalar }
{
    <Pair<Pair<u8x16>> as PlaneScalars<_>>::multiples(u128::from(scalar), 32)
}

// The product of a byte by the root that level 3 adjoins, 16.
#[inline]
pub(crate) fn times_root_8(scalar: u8) -> u8
    ensures { result ≡ tower_mul 3 (root 3) scalar }
{
    entry_at(&PRODUCTS, 32 * scalar as usize + 17)
}

// The entry at a place.
#[inline(always)]
fn entry_at(table: &[u8], place: usize) -> u8
    requires { place < length table.now }
    ensures { result ≡ slice_index table.now place }
{
    table[place]
}

// The sixteen entries from `start` on.
#[inline(always)]
fn entries_at(table: &[u8], start: usize) -> u8x16
    requires { start + 16 ≤ length table.now }
    ensures { result ≡ chunk start 16 table.now }
{
    u8x16::from_slice(&table[start..])
}
