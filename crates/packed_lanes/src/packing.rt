// Packings: values of several lanes, and the rings whose operations go lane by lane.
ghost use Rattle.std.specs.Prelude.{◌≡◌, ◌*◌, ◌<◌, ◌≤◌, ◌^◌, ℕ, List, [], ◌∷◌, length, map, refl, replicate, slice_set};
ghost use Rattle.std.specs.Mem.{FitsInMemory};
ghost use Rattle.field_base.specs.Chunks.{joined};
ghost use Rattle.std.specs.Array.{FillsFrom, index_steps};
ghost use Rattle.std.specs.Iterator.{CallableAtEachTurn};
ghost use Rattle.packed_lanes.specs.Lanes.{AreInterleaved, IsPowerOfTwo, lane_product};
ghost use Rattle.packed_lanes.specs.lemmas.OneLane.{one_lane_joined, one_lane_product, one_lane_width, same_only_lane};

use field_base::traits::{Algebra, Field};
use std::array;

/// A value of `WIDTH` lanes.
pub trait PackedValue: Copy + Default {
    /// What a lane holds.
    type Value: Copy;

    /// The number of lanes.
    const WIDTH: usize;

    ghost WIDTH: { ℕ };

    // The lanes, from lane 0 on.
    ghost lanes: { Self → List Self.Value };

    /// The value whose lanes are the elements of a slice of `WIDTH` elements, lane i at place i.
    fn from_slice(slice: &[Self::Value]) -> Self
        requires { length slice.now ≡ WIDTH }
        ensures { lanes result ≡ slice.now };

    /// The lanes, lane i at place i. Their type has to fit in memory, as every type of a program does; generic code over a
    /// packing, which does not know the type, passes the condition on.
    fn as_slice(&self) -> &[Self::Value]
        requires { FitsInMemory Self.Value.row }
        ensures { result.now ≡ lanes self.now };

    /// Writes one lane, and leaves the others.
    fn set_lane(&mut self, lane: usize, value: Self::Value)
        requires { lane < WIDTH }
        ensures { lanes self.new ≡ slice_set (lanes self.old) lane value };

    /// Writes lane i to place i of a slice of `WIDTH` places.
    fn copy_to_slice(&self, slice: &mut [Self::Value])
        requires { length slice.old ≡ WIDTH }
        ensures { slice.new ≡ lanes self.now };

    /// The value whose lane i is what `f` returns for i. It is called for 0, 1, .. in order, once for each lane, and needs to take
    /// these indexes alone: a call for `WIDTH`, or a second one for a lane, has no leave.
    final fn from_fn<F: FnMut(usize) -> Self::Value>(mut f: F) -> Self
        requires { CallableAtEachTurn (index_steps WIDTH) (λ p i q. (x : Self.Value) × F.step p i x q) F.pre 0 f }
        ensures { (last : F) × FillsFrom (λ p i x q. F.step p i x q) f 0 (lanes result) last }
    {
        let mut value = Self::default();
        for lane in 0..Self::WIDTH {
            let answer = f(lane);
            value.set_lane(lane, answer);
        }
        value
    }

    ghost width_law: { (x : Self) → length (lanes x) ≡ WIDTH };

    ghost same_lanes_law: { (x y : Self) → lanes x ≡ lanes y → x ≡ y };
}

/// A ring of lanes of the field `Scalar`, each operation of which goes lane by lane: its number is that of the lanes side by side,
/// lane 0 in the lowest bits, its product is the product lane by lane, and an element of the field stands for itself in every
/// lane.
pub trait PackedField: Algebra<Self::Scalar> + PackedValue<Value = Self::Scalar> {
    /// The field of the lanes.
    type Scalar: Field;

    ghost lanes_repr_law: { (x : Self) → Self.repr x ≡ joined Self.Scalar.width (map Self.Scalar.repr (Self.lanes x)) };

    ghost lanes_width_law: { Self.width ≡ Self.WIDTH * Self.Scalar.width };

    ghost lanes_unit_law: { Self.unit ≡ joined Self.Scalar.width (replicate Self.WIDTH Self.Scalar.unit) };

    ghost lanes_product_law: { (a b : ℕ) → Self.product a b ≡ lane_product Self.Scalar.width Self.Scalar.product Self.WIDTH a b };

    ghost lanes_image_law: { (a : ℕ) → a < 2 ^ Self.Scalar.width → Self.image a ≡ joined Self.Scalar.width (replicate Self.WIDTH a) };
}

/// A packed field that can interleave two of its values.
pub trait PackedFieldPow2: PackedField {
    /// Both values interleaved by blocks of `block_len` lanes, a power of two up to a `WIDTH` that is a power of two: the even
    /// blocks of both, a block of this one before the same block of the other, and then the odd blocks. By blocks of `WIDTH`
    /// lanes both stay as they are.
    fn interleave(&self, other: Self, block_len: usize) -> (Self, Self)
        requires width { IsPowerOfTwo Self.WIDTH }
        requires block { IsPowerOfTwo block_len }
        requires room { block_len ≤ Self.WIDTH }
        ensures { AreInterleaved block_len (Self.lanes self.now) (Self.lanes other) (Self.lanes result.0) (Self.lanes result.1) };
}

// A field that is its own packing has one lane, itself.
impl<F: Field<Packing = F>> PackedValue for F {
    type Value = F;

    const WIDTH: usize = 1;

    ghost WIDTH = { 1 };

    ghost lanes = { λ x. x ∷ [] };

    #[inline]
    fn from_slice(slice: &[F]) -> F {
        slice[0]
    }

    #[inline]
    fn as_slice(&self) -> &[F] {
        array::from_ref(self).as_slice()
    }

    #[inline]
    #[tactic(auto, using(crate::specs::lemmas::OneLane::write_only_lane))]
    fn copy_to_slice(&self, slice: &mut [F]) {
        slice[0] = *self;
    }

    #[inline]
    #[tactic(auto, using(crate::specs::lemmas::OneLane::put_only_lane))]
    fn set_lane(&mut self, _lane: usize, value: F) {
        *self = value;
    }

    ghost width_law = { λ x. refl };

    ghost same_lanes_law = { same_only_lane };
}

impl<F: Field<Packing = F>> PackedField for F {
    type Scalar = F;

    ghost lanes_repr_law = { λ x. one_lane_joined F.width (F.repr x) };

    ghost lanes_width_law = { one_lane_width F.width };

    ghost lanes_unit_law = { one_lane_joined F.width F.unit };

    ghost lanes_product_law = { one_lane_product F.width F.product };

    ghost lanes_image_law = { λ a fits. one_lane_joined F.width a };
}

impl<F: Field<Packing = F>> PackedFieldPow2 for F {
    #[inline]
    fn interleave(&self, other: F, _block_len: usize) -> (F, F) {
        (*self, other)
    }
}
