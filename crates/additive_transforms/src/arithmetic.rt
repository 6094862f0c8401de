// The arithmetic of the stages of a transform of words: each block by as narrow a scalar as its twiddle is.
ghost use Rattle.std.specs.Prelude.{◌≡◌, ◌^◌, ◌<◌, ◌≤◌, ℕ, length, map, slice_index};
ghost use Rattle.std.proofs.lemmas.Nat.{pow_pos};
ghost use native.Mathlib.Nat.{mod-lt};
ghost use Rattle.field_base.proofs.TowerRing.{tower_ring};
ghost use Rattle.field_base.specs.Tower.{tower_mul};
ghost use Rattle.additive_transforms.specs.lemmas.Counting.{nothing_counted};
ghost use Rattle.additive_transforms.specs.Lanes.{AreLaneShifts};
ghost use Rattle.additive_transforms.specs.lemmas.LevelVector.{level_vectors};
ghost use Rattle.additive_transforms.specs.Transform.{TakesTransform};
ghost use Rattle.additive_transforms.specs.Words.{TakesWords, cantor_vector, level_element};

use crate::elements::arithmetic::{CACHED_STAGES, StageArithmetic, Uncounted};
use crate::in_lanes::transform_in_lanes;
use crate::level_pairs::run_all;
use crate::multiples::{multiples_8, multiples_16, multiples_32};
use crate::pair::Pair;
use crate::products::WholeScalar;
use crate::stages::stages_from;
use crate::word_bytes::WordBytes;
use crate::word_rows::run_words;
use field_base::{LevelKernel, Unsigned};
use std::marker::PhantomData;
use std::simd::prelude::*;
use word_tower::{Level, Tower};

// The stages that are done in lanes.
const LANE_STAGES: usize = 6;

/// The arithmetic of the level `L` of the tower, with words `W` that hold its words `R` and are read into vectors of their bytes.
pub(crate) struct OfLevel<R, L, W> {
    stored: PhantomData<R>,
    level: PhantomData<L>,
    words: PhantomData<W>,
}

impl<R: Unsigned, L: Level<R>, W: WordBytes<R>> StageArithmetic for OfLevel<R, L, W> {
    type Value = W;

    type Twiddle = R;

    type Counter = ();

    ghost width = { 2 ^ L.LEVEL };

    ghost product = { tower_mul L.LEVEL };

    ghost vector = { cantor_vector };

    ghost value = { level_element W.Reads.number L.LEVEL };

    ghost number = { R.number };

    ghost counted = { λ _ _ _. Unit {0} };

    ghost has_room = { λ _ _. Unit {0} };

    #[inline]
    fn sum(x: R, y: R) -> R {
        x.xor(y)
    }

    #[inline]
    fn cantor_vector(i: usize) -> R {
        <Tower<L> as LevelKernel<R>>::cantor_vector(i)
    }

    fn square(x: R) -> R {
        L::square(x)
    }

    fn butterflies(counter: &mut (), lo: &mut [W], hi: &mut [W], twiddle: R, inverse: bool) {
        butterflies_by_width::<R, L, W>(lo, hi, twiddle, inverse);
    }

    ghost count_law = { nothing_counted };

    ghost wide_law = { pow_pos L.LEVEL };

    ghost ring_law = { tower_ring L.LEVEL };

    ghost vector_law = { level_vectors L.LEVEL L.few };

    ghost range_law = { λ x. mod-lt (W.Reads.number x) (pow_pos (2 ^ L.LEVEL)) };
}

impl<R: Unsigned, L: Level<R>, W: WordBytes<R>> Uncounted for OfLevel<R, L, W> {
    // Words of 16 and of 32 bits are transformed in lanes, sixty-four at once.
    #[inline]
    fn is_at_once(stages: usize) -> bool {
        stages <= LANE_STAGES || stages <= CACHED_STAGES && L::LEVEL != 4 && L::LEVEL != 5
    }

    fn transform_at_once(counter: &mut (), values: &mut [W], stages: usize, z: R, inverse: bool) {
        if stages == LANE_STAGES && L::LEVEL == 4 && W::in_sixteen() == 8 {
            transform_lanes_16::<R, L, W>(values, z, inverse);
            return;
        }
        if stages == LANE_STAGES && L::LEVEL == 5 && W::in_sixteen() == 4 {
            transform_lanes_32::<R, L, W>(values, z, inverse);
            return;
        }
        stages_from::<Self>(counter, values, 0, stages, z, inverse);
    }

    ghost room_law = { λ _ _. tt };
}

// The transform of sixty-four words of 16 bits, or the inverse one.
fn transform_lanes_16<R: Unsigned, L: Level<R>, W: WordBytes<R>>(
    words: &mut [W],
    z: R,
    inverse: bool,
)
    requires words { length words.old ≡ 64 }
    requires level { L.LEVEL ≡ 4 }
    requires size { W.size ≡ 1 }
    ensures length { length words.new ≡ length words.old }
    ensures values { let element = level_element W.Holds.number L.LEVEL in
        TakesTransform inverse (2 ^ L.LEVEL) (tower_mul L.LEVEL) cantor_vector (R.number z) (map element words.old)
        (map element words.new) }
{
    let shifts = lane_shifts::<R, L>(z);
    transform_in_lanes::<R, W, _, Pair<u8x32>>(words, &shifts, 16, inverse);
}

// The transform of sixty-four words of 32 bits, or the inverse one.
fn transform_lanes_32<R: Unsigned, L: Level<R>, W: WordBytes<R>>(
    words: &mut [W],
    z: R,
    inverse: bool,
)
    requires words { length words.old ≡ 64 }
    requires level { L.LEVEL ≡ 5 }
    requires size { W.size ≡ 2 }
    ensures length { length words.new ≡ length words.old }
    ensures values { let element = level_element W.Holds.number L.LEVEL in
        TakesTransform inverse (2 ^ L.LEVEL) (tower_mul L.LEVEL) cantor_vector (R.number z) (map element words.old)
        (map element words.new) }
{
    let shifts = lane_shifts::<R, L>(z);
    transform_in_lanes::<R, W, _, Pair<Pair<u8x32>>>(words, &shifts, 32, inverse);
}

// The shifts of the six lowest stages: s_0(z) = z, and s_(j + 1)(z) = s_j(z)^2 + s_j(z).
fn lane_shifts<R: Unsigned, L: Level<R>>(z: R) -> [u128; 6]
    ensures shifts { AreLaneShifts (tower_mul L.LEVEL) (R.number z) result }
    ensures fit { (j : ℕ) → slice_index result j < 2 ^ R.bits }
{
    let mut shifts = [number_of(z); 6];
    let mut shift = z;
    for j in 1..6 {
        shift = L::square(shift).xor(shift);
        shifts[j] = number_of(shift);
    }
    shifts
}

// The number of a word, which has no more bits.
#[inline(always)]
fn number_of<R: Unsigned>(word: R) -> u128
    ensures number { result ≡ R.number word }
    ensures fits { result < 2 ^ R.bits }
{
    R::words_fit(&[word]);
    word.to_u128()
}

/// The butterflies of the halves of a block: products by 8, 16 or 32 bits in vectors where the twiddle has no more, and whole ones
/// otherwise. The lowest stages have blocks of few pairs, so that a call of its own would count.
#[inline(always)]
pub(crate) fn butterflies_by_width<R: Unsigned, L: Level<R>, W: WordBytes<R>>(
    lo: &mut [W],
    hi: &mut [W],
    twiddle: R,
    inverse: bool,
)
    requires { length lo.old ≡ length hi.old }
    ensures lower { length lo.new ≡ length lo.old }
    ensures upper { length hi.new ≡ length hi.old }
    ensures values { TakesWords W.Holds.number L.LEVEL inverse (R.number twiddle) lo.old hi.old lo.new hi.new }
{
    let scalar = twiddle.to_u128();
    if 3 <= L::LEVEL && scalar < 1 << 8 {
        run_words::<R, L, W, _>(lo, hi, multiples_8(scalar as u8), inverse);
    } else if 4 <= L::LEVEL && scalar < 1 << 16 {
        run_words::<R, L, W, _>(lo, hi, multiples_16(scalar as u16), inverse);
    } else if 5 <= L::LEVEL && scalar < 1 << 32 {
        run_words::<R, L, W, _>(lo, hi, multiples_32(scalar as u32), inverse);
    } else {
        let whole = WholeScalar {
            scalar: twiddle,
            inverse,
            level: PhantomData::<L>,
        };
        run_all(lo, hi, &whole);
    }
}
