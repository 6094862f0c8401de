// Planes of thirty-two elements, each of which is multiplied by a scalar of its own: the sum of the Cantor vectors at the set bits of the
// number of its lane. A vector of bytes is multiplied by one scalar only, so each Cantor vector takes a product of all lanes, of which
// those count whose number has the bit.
ghost use Rattle.std.specs.Prelude.{◌≡◌, ◌+◌, ◌*◌, ◌^◌, ◌<◌, ◌≤◌, ℕ, bit_xor, length, refl};
ghost use Rattle.std.specs.Int.{bit_at};
ghost use Rattle.std.specs.Simd.Lanes.{chunk};
ghost use Rattle.field_base.specs.Tower.{tower_mul};
ghost use Rattle.additive_transforms.specs.Lanes.{lane_twiddle};
ghost use Rattle.additive_transforms.specs.Products.{AreMultiples};
ghost use Rattle.additive_transforms.specs.Rows.{byte_of_lane, level_of};

use crate::multiples::{ByteMultiples, HalfMultiples, multiples_8};
use crate::pair::Pair;
use crate::plane_scalars::PlaneScalars;
use crate::planes::Planes;
use std::simd::prelude::*;

// The Cantor vectors 1 to 5, which are bytes.
static VECTORS: [u8; 5] = [0x02, 0x0c, 0x06, 0x66, 0xbe];

// Byte 32 b + l is 255 where bit b of l is set, and else 0.
#[rattlefmt::skip]
static MASKS: [u8; 160] = [
    0x00, 0xff, 0x00, 0xff, 0x00, 0xff, 0x00, 0xff, 0x00, 0xff, 0x00, 0xff, 0x00, 0xff, 0x00, 0xff,
    0x00, 0xff, 0x00, 0xff, 0x00, 0xff, 0x00, 0xff, 0x00, 0xff, 0x00, 0xff, 0x00, 0xff, 0x00, 0xff,
    0x00, 0x00, 0xff, 0xff, 0x00, 0x00, 0xff, 0xff, 0x00, 0x00, 0xff, 0xff, 0x00, 0x00, 0xff, 0xff,
    0x00, 0x00, 0xff, 0xff, 0x00, 0x00, 0xff, 0xff, 0x00, 0x00, 0xff, 0xff, 0x00, 0x00, 0xff, 0xff,
    0x00, 0x00, 0x00, 0x00, 0xff, 0xff, 0xff, 0xff, 0x00, 0x00, 0x00, 0x00, 0xff, 0xff, 0xff, 0xff,
    0x00, 0x00, 0x00, 0x00, 0xff, 0xff, 0xff, 0xff, 0x00, 0x00, 0x00, 0x00, 0xff, 0xff, 0xff, 0xff,
    0x00, 0x00, 0x00, 0x00, 0x00, 0x00, 0x00, 0x00, 0xff, 0xff, 0xff, 0xff, 0xff, 0xff, 0xff, 0xff,
    0x00, 0x00, 0x00, 0x00, 0x00, 0x00, 0x00, 0x00, 0xff, 0xff, 0xff, 0xff, 0xff, 0xff, 0xff, 0xff,
    0x00, 0x00, 0x00, 0x00, 0x00, 0x00, 0x00, 0x00, 0x00, 0x00, 0x00, 0x00, 0x00, 0x00, 0x00, 0x00,
    0xff, 0xff, 0xff, 0xff, 0xff, 0xff, 0xff, 0xff, 0xff, 0xff, 0xff, 0xff, 0xff, 0xff, 0xff, 0xff,
];

/// Planes of thirty-two elements, of which lanes are chosen by the bits of their numbers.
pub(crate) trait LanePlanes<M>: PlaneScalars<M> {
    /// Adds the product by the byte of the multiples in each lane whose number has the bit set.
    fn add_product_where(&mut self, multiples: &ByteMultiples, factor: &Self, bit: usize)
        requires { bit < 5 }
        ensures { (v : ℕ) → v < 2 ^ 2 ^ 3 → AreMultiples multiples.now v → (l : ℕ) → l < Self.Planes.lanes
            → Self.Planes.lane self.new l
            ≡ bit_xor (Self.Planes.lane self.old l)
            (bit_at l bit * tower_mul (level_of Self.Planes.depth) v (Self.Planes.lane factor.now l)) };

    ghost lanes_law: { Self.Planes.lanes ≡ 32 };
}

impl LanePlanes<ByteMultiples> for u8x32 {
    #[inline(always)]
    fn add_product_where(&mut self, multiples: &ByteMultiples, factor: &u8x32, bit: usize) {
        let mut product = *factor;
        product.set_product(multiples, factor);
        self.add(&chosen_lanes(product, bit));
    }

    ghost lanes_law = { refl };
}

// The bytes in the lanes whose numbers have the bit set, and zeros in the others.
#[inline(always)]
fn chosen_lanes(bytes: u8x32, bit: usize) -> u8x32
    requires { bit < 5 }
    ensures { (l : ℕ) → l < 32 → byte_of_lane result l ≡ bit_at l bit * byte_of_lane bytes l }
{
    bytes & entries_from(&MASKS, 32 * bit)
}

// The thirty-two entries from `start` on.
#[inline(always)]
fn entries_from(table: &[u8], start: usize) -> u8x32
    requires { start + 32 ≤ length table.now }
    ensures { result ≡ chunk start 32 table.now }
{
    u8x32::from_slice(&table[start..])
}

impl<M, P: LanePlanes<M>> LanePlanes<HalfMultiples<M>> for Pair<P> {
    #[inline(always)]
    fn add_product_where(&mut self, multiples: &ByteMultiples, factor: &Pair<P>, bit: usize) {
        self.low.add_product_where(multiples, &factor.low, bit);
        self.high.add_product_where(multiples, &factor.high, bit);
    }

    ghost lanes_law = { P.lanes_law };
}

/// The sums, and the product of each lane of the factor by the Cantor vectors that belong to the set ones of the lowest bits of its
/// number, so many: vector 1 to bit 0, and so on.
#[inline(always)]
pub(crate) fn add_lane_products<M, P: LanePlanes<M>>(sums: P, factor: &P, bits: usize) -> P
    requires { bits ≤ 5 }
    ensures { (l : ℕ) → l < P.Planes.lanes → P.Planes.lane result l
        ≡ bit_xor (P.Planes.lane sums l) (tower_mul (level_of P.Planes.depth) (lane_twiddle bits l) (P.Planes.lane factor.now l)) }
{
    let mut added = sums;
    for bit in 0..bits {
        added.add_product_where(&multiples_8(VECTORS[bit]), factor, bit);
    }
    added
}
