// The points at which polynomials have symbols as their values, and where these are lost.
ghost use Rattle.std.specs.Prelude.{◌≡◌, ℕ, ◌+◌, ◌^◌, ◌<◌, ◌≤◌, true, length};
ghost use Rattle.ghash_slices.specs.Cantor.{point};
ghost use Rattle.word_tables.specs.Cantor.{cantor_vector};
ghost use Rattle.reed_solomon.specs.Restoring.{ArePoints, is_lost};

use crate::transform_codec::TransformCode;
use field_base::{FieldKernel, LevelKernel, Unsigned};
use word_tower::{Level, Tower};

// Point p, of p's bits below those of the level: the sum of Cantor vector b for each set bit b.
pub(crate) fn point_of<R: Unsigned, L: Level<R>>(p: usize) -> R
    ensures { R.number result ≡ point (2 ^ L.LEVEL) cantor_vector 0 p }
{
    let mut sum = R::ZERO;
    let mut rest = p;
    for bit in 0..<Tower<L> as FieldKernel<R>>::bits() {
        if rest % 2 == 1 {
            sum = sum.xor(<Tower<L> as LevelKernel<R>>::cantor_vector(bit));
        }
        rest /= 2;
    }
    sum
}

// Sets word p to point p.
pub(crate) fn set_points<R: Unsigned, L: Level<R>>(points: &mut [R])
    ensures long { length points.new ≡ length points.old }
    ensures points { ArePoints R.number R.ZERO L.LEVEL points.new }
{
    for p in 0..points.len() {
        points[p] = point_of::<R, L>(p);
    }
}

// Whether the symbol at point p is lost.
pub(crate) fn is_lost(code: &TransformCode, present: &[bool], p: usize) -> bool
    requires { length present.now ≡ code.now.data_shards + code.now.parity_shards }
    ensures { result ≡ is_lost code.now.data_shards code.now.levels code.now.parity_shards present.now p }
{
    let first = code.coefficient_count();
    if p < code.data_shards {
        !present[p]
    } else if p < first {
        false
    } else if p < first + code.parity_shards {
        !present[code.data_shards + (p - first)]
    } else {
        true
    }
}

// How many places there are up to the last one of a shard that is missing, and with it: 0 where none is.
pub(crate) fn places_to_last(code: &TransformCode, present: &[bool]) -> usize
    requires { length present.now ≡ code.now.data_shards + code.now.parity_shards }
    ensures few { result ≤ 2 ^ code.now.levels + code.now.parity_shards }
    ensures all { (p : ℕ) → p < 2 ^ code.now.levels + code.now.parity_shards
        → is_lost code.now.data_shards code.now.levels code.now.parity_shards present.now p ≡ true → p < result }
{
    let mut count = 0;
    for p in 0..code.coefficient_count() + code.parity_shards {
        if is_lost(code, present, p) {
            count = p + 1;
        }
    }
    count
}
