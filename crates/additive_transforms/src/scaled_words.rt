// Slices of words that are multiplied by one scalar, in planes.
ghost use Rattle.std.specs.Prelude.{◌≡◌, ◌+◌, ◌^◌, ◌<◌, ◌≤◌, ℕ, bit_xor, length, map, slice_index};
ghost use Rattle.field_base.specs.Tower.{tower_mul};
ghost use Rattle.additive_transforms.specs.Rows.{level_of};
ghost use Rattle.additive_transforms.specs.Units.{FirstAre};

use crate::word_bytes::WordBytes;
use crate::word_planes::WordPlanes;
use field_base::Stored;

/// Multiplies the words by the scalar of the multiples, as many at once as a vector has bytes, and returns how many: those that fill no
/// vector at the end stay. A word has as many bytes as an element of the planes.
#[inline]
#[tactic(auto, using(crate::proofs::WordSteps::none_first))]
pub fn multiply_words<R: Stored, W: WordBytes<R>, M, P: WordPlanes<R, W, M>>(
    words: &mut [W],
    multiples: &M,
) -> usize
    requires { W.size ≡ P.Planes.depth }
    ensures long { length words.new ≡ length words.old }
    ensures few { result ≤ length words.old }
    ensures rest { length words.old < result + P.Planes.lanes }
    ensures products { (s : ℕ) → P.Planes.are_multiples multiples.now s
        → FirstAre result (λ k. tower_mul (level_of P.Planes.depth) s (slice_index (map W.Holds.number words.old) k))
        (map W.Holds.number words.old) (map W.Holds.number words.new) }
{
    let lanes = P::lane_count();
    let blocks = words.len() / lanes;
    for block in 0..blocks {
        let start = lanes * block;
        let products: P = products_at(words, start, lanes, multiples);
        products.scatter(words, start, lanes);
    }
    lanes * blocks
}

/// Adds the products of other words by the scalar of the multiples to the sums, as many at once as a vector has bytes, and returns how
/// many. The slices are of one length, and a word has as many bytes as an element of the planes, and fits its level.
#[inline]
#[tactic(auto, using(crate::proofs::WordSteps::none_first))]
pub fn add_multiples<R: Stored, W: WordBytes<R>, M, P: WordPlanes<R, W, M>>(
    sums: &mut [W],
    words: &[W],
    multiples: &M,
) -> usize
    requires size { W.size ≡ P.Planes.depth }
    requires same { length sums.old ≡ length words.now }
    requires fit { (k : ℕ) → slice_index (map W.Holds.number sums.old) k < 2 ^ 2 ^ level_of P.Planes.depth }
    ensures long { length sums.new ≡ length sums.old }
    ensures few { result ≤ length sums.old }
    ensures rest { length sums.old < result + P.Planes.lanes }
    ensures products { (s : ℕ) → P.Planes.are_multiples multiples.now s
        → FirstAre result
        (λ k. bit_xor (slice_index (map W.Holds.number sums.old) k)
        (tower_mul (level_of P.Planes.depth) s (slice_index (map W.Holds.number words.now) k)))
        (map W.Holds.number sums.old) (map W.Holds.number sums.new) }
{
    let lanes = P::lane_count();
    let blocks = words.len() / lanes;
    for block in 0..blocks {
        let start = lanes * block;
        let mut products: P = products_at(words, start, lanes, multiples);
        products.add(&P::gather(sums, start, lanes));
        products.scatter(sums, start, lanes);
    }
    lanes * blocks
}

// The products of the words from `start` on, as many as there are elements.
#[inline(always)]
fn products_at<R: Stored, W: WordBytes<R>, M, P: WordPlanes<R, W, M>>(
    words: &[W],
    start: usize,
    lanes: usize,
    multiples: &M,
) -> P
    requires size { W.size ≡ P.Planes.depth }
    requires count { lanes ≡ P.Planes.lanes }
    requires inside { start + lanes ≤ length words.now }
    ensures { (s : ℕ) → P.Planes.are_multiples multiples.now s → (l : ℕ) → l < P.Planes.lanes
        → P.Planes.lane result l ≡ tower_mul (level_of P.Planes.depth) s (slice_index (map W.Holds.number words.now) (start + l)) }
{
    let elements = P::gather(words, start, lanes);
    let mut products = elements;
    products.set_product(multiples, &elements);
    products
}
