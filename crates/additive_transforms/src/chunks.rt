// Products by a scalar of vectors of bytes: of all their elements of 8, 16 or 32 bits at once, which stand one after another.
ghost use Rattle.std.specs.Prelude.{◌≡◌, [], ◌∷◌, ◌^◌, ◌<◌, ◌≤◌, ℕ, Bool, IsTrue, bit_xor, false, slice_index, suc};
ghost use Rattle.std.specs.Simd.Lanes.{zip2};
ghost use Rattle.additive_transforms.specs.Stages.{TakesBlock};
ghost use Rattle.field_base.specs.Tower.{tower_mul};
ghost use Rattle.additive_transforms.specs.lemmas.Chunk.{no_halves, one_half, two_halves};
ghost use Rattle.additive_transforms.specs.Chunks.{AreExchanged, AreHalfTimes, AreMerged, AreRegrouped, AreTimes, TakesChunks, chunk_of};
ghost use Rattle.additive_transforms.specs.Halves.{are_of_halves};
ghost use Rattle.additive_transforms.specs.Products.{AreMultiples};
ghost use Rattle.additive_transforms.specs.Rows.{level_of};

use crate::multiples::{ByteMultiples, HalfMultiples};
use crate::vectors::ChunkVector;
use std::simd::prelude::*;
use word_carryless::{bytes_of_128, number_of_bytes};
use word_tables::{ByteVector, entry_sums};

/// The multiples of a scalar of 8, 16 or 32 bits, by which all elements of so many bits in a vector are multiplied at once.
pub(crate) trait Scales {
    // The elements have 2 to the power of so many bytes.
    ghost depth: { ℕ };

    // What the multiples are of a scalar.
    ghost are_multiples: { Self → ℕ → Type 0 };

    /// Each element, multiplied by the scalar.
    fn times<V: ChunkVector>(&self, bytes: V) -> V
        ensures { (s : ℕ) → are_multiples self.now s → AreTimes depth s (V.ByteVector.bytes bytes) (V.ByteVector.bytes result) };

    /// Each element of two vectors, multiplied by the scalar: the halves of elements take as many products of one vector as for one.
    fn times_two<V: ChunkVector>(&self, first: V, second: V) -> (V, V)
        ensures first { (s : ℕ) → are_multiples self.now s → AreTimes depth s (V.ByteVector.bytes first) (V.ByteVector.bytes result.0) }
        ensures second { (s : ℕ) → are_multiples self.now s → AreTimes depth s (V.ByteVector.bytes second) (V.ByteVector.bytes result.1) };

    ghost few_law: { depth ≤ 4 };
}

/// The multiples of scalars whose elements stand in pairs, as the halves of wider ones.
pub(crate) trait Paired: Scales {
    /// The two elements of each pair exchanged.
    fn exchanged<V: ChunkVector>(bytes: V) -> V
        ensures { AreExchanged Self.Scales.depth (V.ByteVector.bytes bytes) (V.ByteVector.bytes result) };

    /// The low elements of the pairs of one vector, and the high ones of another.
    fn merged<V: ChunkVector>(lows: V, highs: V) -> V
        ensures { AreMerged Self.Scales.depth (V.ByteVector.bytes lows) (V.ByteVector.bytes highs) (V.ByteVector.bytes result) };

    ghost pairs_law: { suc Self.Scales.depth ≤ 4 };
}

impl Scales for ByteMultiples {
    ghost depth = { 0 };

    ghost are_multiples = { AreMultiples };

    #[inline(always)]
    fn times<V: ChunkVector>(&self, bytes: V) -> V {
        bytes.holds_bytes();
        entry_sums(self.low, self.high, bytes)
    }

    #[inline(always)]
    fn times_two<V: ChunkVector>(&self, first: V, second: V) -> (V, V) {
        (self.times(first), self.times(second))
    }

    ghost few_law = { no_halves };
}

impl Paired for ByteMultiples {
    #[inline(always)]
    fn exchanged<V: ChunkVector>(bytes: V) -> V {
        bytes.exchanged_8()
    }

    #[inline(always)]
    fn merged<V: ChunkVector>(lows: V, highs: V) -> V {
        lows.merged_8(highs)
    }

    ghost pairs_law = { one_half };
}

impl Paired for HalfMultiples<ByteMultiples> {
    #[inline(always)]
    fn exchanged<V: ChunkVector>(bytes: V) -> V {
        bytes.exchanged_16()
    }

    #[inline(always)]
    fn merged<V: ChunkVector>(lows: V, highs: V) -> V {
        lows.merged_16(highs)
    }

    ghost pairs_law = { two_halves };
}

impl<M: Paired> Scales for HalfMultiples<M> {
    ghost depth = { suc M.Scales.depth };

    ghost are_multiples = { are_of_halves M.Scales.depth M.Scales.are_multiples };

    // (s0 + s1 X) (a0 + a1 X), where q = s1 (a0 + a1), is q + (s0 + s1) a0 and q + (s0 + s1 + t s1) a1.
    #[inline(always)]
    fn times<V: ChunkVector>(&self, bytes: V) -> V {
        let exchanged = M::exchanged(bytes);
        bytes.holds_bytes();
        exchanged.holds_bytes();
        let both = self.both.times(bytes.sum(exchanged));
        both.holds_bytes();
        let merged = M::merged(self.low.times(bytes), self.high.times(bytes));
        merged.holds_bytes();
        merged.sum(both)
    }

    // `times` for two vectors, by the vector of all low halves and that of all high halves.
    #[inline(always)]
    fn times_two<V: ChunkVector>(&self, first: V, second: V) -> (V, V) {
        let (low, high) = transposed::<M, V>(first, second);
        let (low_product, high_product) = half_products(self, low, high);
        transposed::<M, V>(low_product, high_product)
    }

    ghost few_law = { M.pairs_law };
}

// The products of elements whose low halves are those of one vector and whose high halves those of another.
#[inline(always)]
fn half_products<M: Paired, V: ChunkVector>(multiples: &HalfMultiples<M>, low: V, high: V) -> (V, V)
    ensures { (s : ℕ) → are_of_halves M.Scales.depth M.Scales.are_multiples multiples.now s
        → AreHalfTimes M.Scales.depth s (V.ByteVector.bytes low) (V.ByteVector.bytes high) (V.ByteVector.bytes result.0)
        (V.ByteVector.bytes result.1) }
{
    low.holds_bytes();
    high.holds_bytes();
    let both = multiples.both.times(low.sum(high));
    both.holds_bytes();
    let low_product = multiples.low.times(low);
    low_product.holds_bytes();
    let high_product = multiples.high.times(high);
    high_product.holds_bytes();
    (low_product.sum(both), high_product.sum(both))
}

// The low elements of the pairs of two vectors, those of the first at even places, and the high ones.
#[inline(always)]
fn transposed<M: Paired, V: ChunkVector>(first: V, second: V) -> (V, V)
    ensures { AreRegrouped M.Scales.depth (V.ByteVector.bytes first) (V.ByteVector.bytes second) (V.ByteVector.bytes result.0)
        (V.ByteVector.bytes result.1) }
{
    let low = M::merged(first, M::exchanged(second));
    (low, M::merged(M::exchanged(first), second))
}

/// The forward butterfly of two numbers of 128 bits, elements of the level of so many, `lo += s * hi` and then `hi += lo`, or, where
/// `inverse` is true, the inverse one.
#[inline(always)]
pub(crate) fn pair_of_numbers<M: Scales>(
    multiples: &M,
    lo: u128,
    hi: u128,
    inverse: bool,
) -> (u128, u128)
    ensures { (s : ℕ) → M.are_multiples multiples.now s → s < 2 ^ 2 ^ level_of M.depth
        → TakesBlock inverse (tower_mul 7) s 1 (slice_index (lo ∷ hi ∷ [])) (slice_index (result.0 ∷ result.1 ∷ [])) }
{
    let (x, y) = pair_of_vectors(multiples, vector_of_one(lo), vector_of_one(hi), inverse);
    (number_of_one(x), number_of_one(y))
}

/// The butterfly of each element of two vectors, of as many bytes as the scalar or more. They stay in vectors from the first sum to the last.
#[inline(always)]
pub(crate) fn pair_of_vectors<M: Scales, V: ChunkVector>(
    multiples: &M,
    lo: V,
    hi: V,
    inverse: bool,
) -> (V, V)
    ensures { (s : ℕ) → M.are_multiples multiples.now s → s < 2 ^ 2 ^ level_of M.depth → (e : ℕ) → M.depth ≤ e
        → TakesChunks inverse e s (V.ByteVector.bytes lo) (V.ByteVector.bytes hi) (V.ByteVector.bytes result.0) (V.ByteVector.bytes result.1) }
{
    if inverse {
        let high = hi.sum(lo);
        (low_before(lo, hi, high, multiples.times(high)), high)
    } else {
        pair_after(lo, hi, multiples.times(hi))
    }
}

/// `pair_of_vectors` for two pairs of vectors.
#[inline(always)]
pub(crate) fn two_pairs_of_vectors<M: Scales, V: ChunkVector>(
    multiples: &M,
    lo: (V, V),
    hi: (V, V),
    inverse: bool,
) -> ((V, V), (V, V))
    ensures first { (s : ℕ) → M.are_multiples multiples.now s → s < 2 ^ 2 ^ level_of M.depth → (e : ℕ) → M.depth ≤ e
        → TakesChunks inverse e s (V.ByteVector.bytes lo.0) (V.ByteVector.bytes hi.0) (V.ByteVector.bytes result.0.0)
        (V.ByteVector.bytes result.1.0) }
    ensures second { (s : ℕ) → M.are_multiples multiples.now s → s < 2 ^ 2 ^ level_of M.depth → (e : ℕ) → M.depth ≤ e
        → TakesChunks inverse e s (V.ByteVector.bytes lo.1) (V.ByteVector.bytes hi.1) (V.ByteVector.bytes result.0.1)
        (V.ByteVector.bytes result.1.1) }
{
    if inverse {
        let first = hi.0.sum(lo.0);
        let second = hi.1.sum(lo.1);
        let product = multiples.times_two(first, second);
        let low_first = low_before(lo.0, hi.0, first, product.0);
        let low_second = low_before(lo.1, hi.1, second, product.1);
        ((low_first, low_second), (first, second))
    } else {
        let product = multiples.times_two(hi.0, hi.1);
        let (low_first, high_first) = pair_after(lo.0, hi.0, product.0);
        let (low_second, high_second) = pair_after(lo.1, hi.1, product.1);
        ((low_first, low_second), (high_first, high_second))
    }
}

// What the inverse butterflies make of `lo`, where `high` is what they make of `hi`, and `product` the products of that.
#[inline(always)]
fn low_before<V: ChunkVector>(lo: V, hi: V, high: V, product: V) -> V
    ensures { (inverse : Bool) → IsTrue inverse → (d s : ℕ) → s < 2 ^ 2 ^ level_of d
        → V.ByteVector.bytes high ≡ zip2 bit_xor (V.ByteVector.bytes hi) (V.ByteVector.bytes lo)
        → AreTimes d s (V.ByteVector.bytes high) (V.ByteVector.bytes product) → (e : ℕ) → d ≤ e
        → TakesChunks inverse e s (V.ByteVector.bytes lo) (V.ByteVector.bytes hi) (V.ByteVector.bytes result) (V.ByteVector.bytes high) }
{
    lo.holds_bytes();
    hi.holds_bytes();
    high.holds_bytes();
    product.holds_bytes();
    lo.sum(product)
}

// What the forward butterflies make of `lo` and `hi`, where `product` has the products of `hi`.
#[inline(always)]
fn pair_after<V: ChunkVector>(lo: V, hi: V, product: V) -> (V, V)
    ensures { (inverse : Bool) → inverse ≡ false → (d s : ℕ) → s < 2 ^ 2 ^ level_of d
        → AreTimes d s (V.ByteVector.bytes hi) (V.ByteVector.bytes product) → (e : ℕ) → d ≤ e
        → TakesChunks inverse e s (V.ByteVector.bytes lo) (V.ByteVector.bytes hi) (V.ByteVector.bytes result.0)
        (V.ByteVector.bytes result.1) }
{
    lo.holds_bytes();
    hi.holds_bytes();
    product.holds_bytes();
    let low = lo.sum(product);
    low.holds_bytes();
    (low, hi.sum(low))
}

// A number as the sixteen bytes of a vector.
#[inline(always)]
fn vector_of_one(x: u128) -> u8x16
    ensures { chunk_of 4 result 0 ≡ x }
{
    let bytes = bytes_of_128(x);
    bytes.holds_bytes();
    bytes
}

// The number of sixteen bytes.
#[inline(always)]
fn number_of_one(bytes: u8x16) -> u128
    ensures { result ≡ chunk_of 4 bytes 0 }
{
    number_of_bytes(bytes)
}
