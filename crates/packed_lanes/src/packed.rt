// Packings of N lanes of any field.
ghost use Rattle.std.specs.Prelude.{◌≡◌, ◌≢◌, ◌<◌, ◌*◌, ◌^◌, ℕ, List, bit_xor, if◌then◌else◌, length, map, replicate, refl, ⊤};
ghost use Rattle.std.proofs.Common.{sym, ◌∙◌, ap};
ghost use Rattle.std.proofs.lemmas.List.{length-replicate};
ghost use Rattle.field_base.specs.Bit.{bit_number};
ghost use Rattle.field_base.specs.Chunks.{joined};
ghost use Rattle.packed_lanes.specs.Lanes.{lane_by_lane, lane_product};
ghost use Rattle.packed_lanes.specs.lemmas.LaneList.{every_below, lanes_below};

mod draws;
mod each;
mod interleaved;
mod lanes;
mod maps;
mod operators;
mod quotients;
mod ring;
mod values;

use crate::packed::each::zip_lanes;
use field_base::Gf2;
use field_base::traits::{Field, Represented};
use std::alloc::AllocError;
use std::ops::{Add, Mul};

/// A ring with more elements than GF(2), whose packings are this crate's: what the operators of a packing take of its lanes. It is
/// small, since a call of generic code at a packing has the proof of each bound of each operator to carry. The work on many lanes
/// at once is one function, which a ring may write in a faster way of its own.
pub trait Laned: Represented {
    /// The element 0.
    const ZERO_LANE: Self;

    ghost ZERO_LANE: { Self };

    /// The element 1.
    const ONE_LANE: Self;

    ghost ONE_LANE: { Self };

    /// Multiplies the elements of `left` by those of `right`, place by place. The slices are of one length.
    #[inline]
    fn multiply_lanes(left: &mut [Self], right: &[Self])
        requires { length left.old ≡ length right.now }
        ensures { map Self.repr left.new ≡ lane_by_lane Self.product (map Self.repr left.old) (map Self.repr right.now) }
    {
        zip_lanes(left, right, product::<Self>);
    }

    ghost zero_lane_law: { Self.repr ZERO_LANE ≡ 0 };

    ghost one_lane_law: { Self.repr ONE_LANE ≡ Self.unit };
}

/// A field with more elements than GF(2), whose packings are this crate's: bits are packed in words.
pub trait WiderField: Field + Laned {}

/// `N` elements of the field `F`, whose operations go lane by lane. `N` may be 0.
#[derive(Debug, PartialEq, Eq)]
pub struct Packed<F, const N: usize> {
    lanes: [F; N],
    ghost long: { length lanes ≡ N },
}

impl<F: Copy, const N: usize> Clone for Packed<F, N> {
    ghost is_clone = { λ x y. y.lanes ≡ x.lanes };

    ghost is_infallible = { λ _. ⊤ };

    fn clone(&self) -> Result<Packed<F, N>, AllocError> {
        Ok(Packed { lanes: self.lanes })
    }
}

impl<F: Copy, const N: usize> Copy for Packed<F, N> {}

impl<F: Copy, const N: usize> Packed<F, N> {
    // The element in every lane.
    #[inline]
    fn broadcast(value: F) -> Packed<F, N>
        ensures { result.lanes ≡ replicate N value }
    {
        Packed { lanes: [value; N] }
    }
}

impl<F: Copy, const N: usize> From<F> for Packed<F, N> {
    ghost from_gives = { λ x r. r.lanes ≡ replicate N x };

    #[inline]
    fn from(value: F) -> Packed<F, N> {
        Packed::broadcast(value)
    }
}

impl<F: Laned, const N: usize> From<Gf2> for Packed<F, N> {
    ghost use Rattle.field_base.specs.Bit.{bit_number as bit_of};

    ghost from_gives = { λ x r. map F.repr r.lanes ≡ replicate N (bit_of x * F.unit) };

    #[inline]
    fn from(bit: Gf2) -> Packed<F, N> {
        Packed::broadcast(lane_of_bit(bit))
    }
}

// The lane 0 or 1 for the bit 0 or 1.
#[inline]
fn lane_of_bit<F: Laned>(bit: Gf2) -> F
    ensures { F.repr result ≡ bit_number bit * F.unit }
{
    chosen_lane(bit.is_one())
}

// The lane 1 for true, and 0 for false.
#[inline]
fn chosen_lane<F: Laned>(is_one: bool) -> F
    ensures { F.repr result ≡ (if is_one then F.unit else 0) }
{
    if is_one { F::ONE_LANE } else { F::ZERO_LANE }
}

impl<F: Laned, const N: usize> Add<Packed<F, N>> for Packed<F, N> {
    type Output = Packed<F, N>;

    ghost add_gives = { λ x y r. map F.repr r.lanes ≡ lane_by_lane bit_xor (map F.repr x.lanes) (map F.repr y.lanes) };

    #[inline]
    fn add(self, other: Packed<F, N>) -> Packed<F, N> {
        self.zip(other, sum::<F>)
    }
}

impl<F: Laned, const N: usize> Mul<Packed<F, N>> for Packed<F, N> {
    type Output = Packed<F, N>;

    ghost mul_gives = { λ x y r. map F.repr r.lanes ≡ lane_by_lane F.product (map F.repr x.lanes) (map F.repr y.lanes) };

    #[inline]
    fn mul(self, other: Packed<F, N>) -> Packed<F, N> {
        let mut lanes = self.lanes;
        F::multiply_lanes(lanes.as_mut_slice(), other.lanes.as_slice());
        Packed { lanes }
    }
}

// The operators as functions, which `zip` and `zip_lanes` take.
#[inline]
fn sum<F: Represented>(x: F, y: F) -> F
    ensures { F.repr result ≡ bit_xor (F.repr x) (F.repr y) }
{
    x + y
}

#[inline]
fn product<F: Represented>(x: F, y: F) -> F
    ensures { F.repr result ≡ F.product (F.repr x) (F.repr y) }
{
    x * y
}

impl<F: Laned, const N: usize> Represented for Packed<F, N> {
    ghost use Rattle.packed_lanes.specs.lemmas.LaneRing.{lanes_ring};
    ghost use Rattle.packed_lanes.specs.lemmas.Packed.{packed_product, packed_same, packed_sum};

    ghost width = { N * F.width };

    ghost unit = { joined F.width (replicate N F.unit) };

    ghost product = { lane_product F.width F.product N };

    ghost repr = { λ x. joined F.width (map F.repr x.lanes) };

    ghost ring_law = { lanes_ring F.width F.unit F.product F.ring_law F.unit_fits N };

    ghost unit_fits = { every_below F.width N F.unit F.unit_fits };

    ghost range_law = { λ x. lanes_below F.width _ F.repr F.range_law N x.lanes x.long };

    ghost same_law = { packed_same F.width F.repr F.range_law F.same_law };

    ghost can_add_law = { λ x y. tt };

    ghost add_law = { packed_sum F.width F.repr F.range_law };

    ghost can_mul_law = { λ x y. tt };

    ghost mul_law = { packed_product F.width F.repr F.range_law F.unit F.product F.ring_law };
}
