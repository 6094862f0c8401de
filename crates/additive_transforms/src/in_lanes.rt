// Transforms of sixty-four words in two rows of planes of thirty-two lanes: all six stages between one reading and one writing.
//
// A butterfly takes the element in a lane of one row and that in the same lane of the other. After each stage both rows are woven, so that
// the pairs of the next stage stand so again, and after the sixth all elements are where they were. The twiddle of a pair is the shift
// of the stage, and a Cantor vector for each set bit of the number of the pair's block, which the lane's number ends with.
ghost use Rattle.std.specs.Prelude.{◌≡◌, ◌^◌, ◌<◌, ◌≤◌, ℕ, bit_xor, length, map, slice_index};
ghost use Rattle.field_base.specs.Tower.{tower_mul};
ghost use Rattle.ghash_slices.specs.Stages.{add_multiple};
ghost use Rattle.additive_transforms.specs.Lanes.{AreLaneShifts, IsLaneStage, TakesRows, lane_twiddle};
ghost use Rattle.additive_transforms.specs.Rows.{level_of};
ghost use Rattle.additive_transforms.specs.Transform.{TakesTransform};
ghost use Rattle.additive_transforms.specs.Units.{joint};
ghost use Rattle.additive_transforms.specs.Words.{cantor_vector, level_element};

use crate::lane_planes::{LanePlanes, add_lane_products};
use crate::word_bytes::WordBytes;
use crate::word_planes::WordPlanes;
use field_base::Stored;

/// The transform of sixty-four words that are elements of so many bits, or, where `inverse` is true, the inverse one. The shifts are those
/// of its stages.
#[inline(always)]
pub(crate) fn transform_in_lanes<
    R: Stored,
    W: WordBytes<R>,
    M: Copy,
    P: LanePlanes<M> + WordPlanes<R, W, M>,
>(words: &mut [W], shifts: &[u128; 6], bits: u32, inverse: bool)
    requires words { length words.old ≡ 64 }
    requires size { W.size ≡ P.Planes.depth }
    requires bits { bits ≡ 2 ^ level_of P.Planes.depth }
    requires few { level_of P.Planes.depth ≤ 7 }
    requires fit { (j : ℕ) → slice_index shifts.now j < 2 ^ bits }
    ensures length { length words.new ≡ length words.old }
    ensures values { let k = level_of P.Planes.depth in let element = level_element W.Holds.number k in
        (z : ℕ) → AreLaneShifts (tower_mul k) z shifts.now
        → TakesTransform inverse (2 ^ k) (tower_mul k) cantor_vector z (map element words.old) (map element words.new) }
{
    let first: P = P::gather(words, 0, 32);
    let second: P = P::gather(words, 32, 32);
    let (low, high) = stages_in_lanes::<R, W, M, P>(first, second, shifts, bits, inverse);
    low.scatter(words, 0, 32);
    high.scatter(words, 32, 32);
}

// The six stages, or their inverses.
#[inline(always)]
fn stages_in_lanes<R: Stored, W: WordBytes<R>, M: Copy, P: LanePlanes<M> + WordPlanes<R, W, M>>(
    first: P,
    second: P,
    shifts: &[u128; 6],
    bits: u32,
    inverse: bool,
) -> (P, P)
    requires bits { bits ≡ 2 ^ level_of P.Planes.depth }
    requires few { level_of P.Planes.depth ≤ 7 }
    requires fit { (j : ℕ) → slice_index shifts.now j < 2 ^ bits }
    ensures { let k = level_of P.Planes.depth in (z : ℕ) → AreLaneShifts (tower_mul k) z shifts.now
        → TakesRows inverse (2 ^ k) (tower_mul k) z (joint 32 (P.Planes.lane first) (P.Planes.lane second))
        (joint 32 (P.Planes.lane result.0) (P.Planes.lane result.1)) }
{
    if inverse {
        let (a, b) = stage_before::<R, W, M, P>(first, second, shifts[0], bits, 5);
        let (a, b) = stage_before::<R, W, M, P>(a, b, shifts[1], bits, 4);
        let (a, b) = stage_before::<R, W, M, P>(a, b, shifts[2], bits, 3);
        let (a, b) = stage_before::<R, W, M, P>(a, b, shifts[3], bits, 2);
        let (a, b) = stage_before::<R, W, M, P>(a, b, shifts[4], bits, 1);
        stage_before::<R, W, M, P>(a, b, shifts[5], bits, 0)
    } else {
        let (a, b) = stage_after::<R, W, M, P>(first, second, shifts[5], bits, 0);
        let (a, b) = stage_after::<R, W, M, P>(a, b, shifts[4], bits, 1);
        let (a, b) = stage_after::<R, W, M, P>(a, b, shifts[3], bits, 2);
        let (a, b) = stage_after::<R, W, M, P>(a, b, shifts[2], bits, 3);
        let (a, b) = stage_after::<R, W, M, P>(a, b, shifts[1], bits, 4);
        stage_after::<R, W, M, P>(a, b, shifts[0], bits, 5)
    }
}

// The butterfly in each lane, woven. The scalar of a lane is the shift and the Cantor vectors of so many bits of the lane's number.
#[inline(always)]
fn stage_after<R: Stored, W: WordBytes<R>, M: Copy, P: LanePlanes<M> + WordPlanes<R, W, M>>(
    low: P,
    high: P,
    shift: u128,
    bits: u32,
    vectors: usize,
) -> (P, P)
    requires bits { bits ≡ 2 ^ level_of P.Planes.depth }
    requires few { bits ≤ 128 }
    requires fits { shift < 2 ^ bits }
    requires vectors { vectors ≤ 5 }
    ensures { IsLaneStage (tower_mul (level_of P.Planes.depth)) shift vectors P.Planes.lanes (P.Planes.lane low) (P.Planes.lane high)
        (P.Planes.lane result.0) (P.Planes.lane result.1) }
{
    let multiples = P::multiples(shift, bits);
    let lower = twiddled(low, &high, &multiples, vectors);
    let mut upper = high;
    upper.add(&lower);
    P::woven(lower, upper)
}

// The inverse butterfly in each lane of what is woven.
#[inline(always)]
fn stage_before<R: Stored, W: WordBytes<R>, M: Copy, P: LanePlanes<M> + WordPlanes<R, W, M>>(
    first: P,
    second: P,
    shift: u128,
    bits: u32,
    vectors: usize,
) -> (P, P)
    requires bits { bits ≡ 2 ^ level_of P.Planes.depth }
    requires few { bits ≤ 128 }
    requires fits { shift < 2 ^ bits }
    requires vectors { vectors ≤ 5 }
    ensures { IsLaneStage (tower_mul (level_of P.Planes.depth)) shift vectors P.Planes.lanes (P.Planes.lane result.0)
        (P.Planes.lane result.1) (P.Planes.lane first) (P.Planes.lane second) }
{
    let multiples = P::multiples(shift, bits);
    let (lower, odds) = P::unwoven(first, second);
    let mut upper = odds;
    upper.add(&lower);
    (twiddled(lower, &upper, &multiples, vectors), upper)
}

// The sum of each lane and the product of the factor's by its scalar.
#[inline(always)]
fn twiddled<M, P: LanePlanes<M>>(sums: P, factor: &P, multiples: &M, vectors: usize) -> P
    requires { vectors ≤ 5 }
    ensures { (s : ℕ) → P.Planes.are_multiples multiples.now s → (l : ℕ) → l < P.Planes.lanes
        → P.Planes.lane result l
        ≡ add_multiple (tower_mul (level_of P.Planes.depth)) (bit_xor s (lane_twiddle vectors l)) (P.Planes.lane sums l)
        (P.Planes.lane factor.now l) }
{
    let mut products = *factor;
    products.set_product(multiples, factor);
    products.add(&sums);
    add_lane_products(products, factor, vectors)
}
