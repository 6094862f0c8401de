// Elements of 8, 16 or 32 bits in vectors of bytes. A plane is a vector that has a byte of each of them.
ghost use Rattle.std.specs.Prelude.{◌≡◌, ℕ, ◌^◌, ◌<◌, bit_xor};
ghost use Rattle.field_base.specs.Tower.{tower_mul};
ghost use Rattle.additive_transforms.specs.Rows.{byte_of_lane, level_of};
ghost use Rattle.additive_transforms.specs.Products.{AreMultiples};
ghost use Rattle.additive_transforms.specs.lemmas.Lane.{byte_of_lane-lt};

use crate::multiples::ByteMultiples;
use word_tables::{ByteVector, entry_sums};

/// As many elements as a vector has bytes, in one, two or four planes. `M` holds the multiples of a scalar by which they are multiplied.
/// All is done in place.
pub trait Planes<M>: Copy {
    // How often a row of elements is halved until its parts have one byte of each element.
    ghost depth: { ℕ };

    // How many elements there are.
    ghost lanes: { ℕ };

    // The element in a lane.
    ghost lane: { Self → ℕ → ℕ };

    // What the multiples are of a scalar.
    ghost are_multiples: { M → ℕ → Type 0 };

    /// How many elements there are.
    fn lane_count() -> usize
        ensures count { result ≡ lanes }
        ensures some { 0 < result };

    /// Adds lane by lane.
    fn add(&mut self, other: &Self)
        ensures { (l : ℕ) → l < lanes → lane self.new l ≡ bit_xor (lane self.old l) (lane other.now l) };

    /// Sets each lane to the product by the scalar of the multiples.
    fn set_product(&mut self, multiples: &M, factor: &Self)
        ensures { (s : ℕ) → are_multiples multiples.now s → (l : ℕ) → l < lanes
            → lane self.new l ≡ tower_mul (level_of depth) s (lane factor.now l) };

    ghost fits_law: { (x : Self) (l : ℕ) → lane x l < 2 ^ 2 ^ level_of depth };
}

impl<V: ByteVector> Planes<ByteMultiples> for V {
    ghost depth = { 0 };

    ghost lanes = { V.lanes };

    ghost lane = { λ x. byte_of_lane (V.bytes x) };

    ghost are_multiples = { AreMultiples };

    #[inline(always)]
    fn lane_count() -> usize {
        <V as ByteVector>::lane_count()
    }

    #[inline(always)]
    fn add(&mut self, other: &V) {
        let (bytes, others) = (*self, *other);
        bytes.holds_bytes();
        others.holds_bytes();
        *self = bytes.sum(others);
    }

    #[inline(always)]
    fn set_product(&mut self, multiples: &ByteMultiples, factor: &V) {
        let bytes = *factor;
        bytes.holds_bytes();
        *self = entry_sums(multiples.low, multiples.high, bytes);
    }

    ghost fits_law = { λ x. byte_of_lane-lt (V.bytes x) };
}
