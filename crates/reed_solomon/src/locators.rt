// The locator of the symbols that are lost, at as many points as there are places of symbols, and its derivative at the lost ones.
//
// The locator of 2^j places has no more than 2^j + 1 coefficients, so that its values at 2^(j + 1) points determine those at the next as
// many: an inverse transform gives its coefficients, and a forward one its values there. So the locators of two halves are made first, at
// half of the points, and their values everywhere are then multiplied. The locator of few places is a product of differences. The
// derivative of the whole locator is, at a lost point, the locator of the other lost symbols.
ghost use Rattle.std.specs.Prelude.{◌≡◌, ◌≢◌, ℕ, ◌+◌, ◌-◌, ◌*◌, ◌/◌, ◌^◌, ◌<◌, ◌≤◌, true, false, length, slice_index_or};
ghost use Rattle.field_base.specs.Tower.{tower_mul};
ghost use Rattle.additive_transforms.specs.Words.{level_element};
ghost use Rattle.reed_solomon.specs.Blocks.{AreDifferences, AreExtended, AreInverted, AreSlopes, HoldLocator};
ghost use Rattle.reed_solomon.specs.Locators.{lost_count};
ghost use Rattle.reed_solomon.specs.Restoring.{AreFactors, ArePoints, is_lost};

use crate::derivatives::derive;
use crate::points::{is_lost, point_of, set_points};
use crate::products::multiply_each;
use crate::transform_codec::{TransformCode, power_of};
use crate::transforms::{forward_strip, inverse_strip};
use additive_transforms::StoredBytes;
use word_tower::Level;

// The locator of at most 2^4 places is a product of differences.
const DIRECT_LEVELS: usize = 4;

// Sets word p to the factor of point p, for `point_count` points. The space is to compute in.
pub(crate) fn set_factors<R: StoredBytes, L: Level<R>>(
    factors: &mut [R],
    space: &mut [R],
    code: &TransformCode,
    present: &[bool],
)
    requires flags { length present.now ≡ code.now.data_shards + code.now.parity_shards }
    requires points { code.now.all_levels ≤ 2 ^ L.LEVEL }
    requires enough { lost_count (is_lost code.now.data_shards code.now.levels code.now.parity_shards present.now) (2 ^ code.now.all_levels)
        + 2 ^ code.now.levels ≤ 2 ^ code.now.all_levels }
    requires long { length factors.old ≡ 2 ^ code.now.all_levels }
    requires room { 3 * 2 ^ code.now.all_levels ≤ length space.old }
    ensures long { length factors.new ≡ length factors.old }
    ensures space { length space.new ≡ length space.old }
    ensures factors { AreFactors R.Stored.number R.ZERO L.LEVEL code.now.data_shards code.now.levels code.now.parity_shards present.now
        (2 ^ code.now.all_levels) factors.new }
{
    let count = code.point_count();
    let (points, rest) = space.split_at_mut(count);
    let (slopes, free) = rest.split_at_mut(count);
    set_points::<R, L>(points);
    set_all_locator::<R, L>(factors, slopes, free, code, present, points);
    set_slopes::<R, L>(slopes, factors, code.all_levels);
    invert_lost::<R, L>(factors, slopes, code, present);
}

// Sets word i to the value at point i of the locator of all lost symbols. The others and the space are to compute in.
fn set_all_locator<R: StoredBytes, L: Level<R>>(
    values: &mut [R],
    others: &mut [R],
    space: &mut [R],
    code: &TransformCode,
    present: &[bool],
    points: &[R],
)
    requires flags { length present.now ≡ code.now.data_shards + code.now.parity_shards }
    requires table { ArePoints R.Stored.number R.ZERO L.LEVEL points.now }
    requires points { code.now.all_levels ≤ 2 ^ L.LEVEL }
    requires long { length values.old ≡ 2 ^ code.now.all_levels }
    requires others { length others.old ≡ 2 ^ code.now.all_levels }
    requires room { 2 ^ code.now.all_levels ≤ length space.old }
    requires all { length points.now ≡ 2 ^ code.now.all_levels }
    ensures long { length values.new ≡ length values.old }
    ensures others_long { length others.new ≡ length others.old }
    ensures locator { HoldLocator R.Stored.number R.ZERO L.LEVEL code.now.data_shards code.now.levels code.now.parity_shards present.now
        0 (2 ^ code.now.all_levels) values.new }
{
    let levels = code.all_levels;
    if levels <= DIRECT_LEVELS {
        set_products::<R, L>(values, code, present, points, 0, power_of(levels));
        return;
    }
    let half = levels - 1;
    set_locator::<R, L>(values, space, code, present, points, 0, half);
    set_locator::<R, L>(others, space, code, present, points, power_of(half), half);
    multiply_each::<R, L>(values, others);
}

// Sets word i to the value at point i of the derivative of the polynomial of 2^levels coefficients that has the known values at as many
// points.
fn set_slopes<R: StoredBytes, L: Level<R>>(slopes: &mut [R], known: &[R], levels: usize)
    requires size { length known.now ≡ 2 ^ levels }
    requires same { length slopes.old ≡ 2 ^ levels }
    requires few { levels ≤ 2 ^ L.LEVEL }
    requires low { levels ≤ 16 }
    ensures long { length slopes.new ≡ length slopes.old }
    ensures slopes { AreSlopes (level_element R.Stored.number L.LEVEL) R.ZERO L.LEVEL levels known.now slopes.new }
{
    slopes.copy_from_slice(known);
    inverse_strip::<R, L>(slopes, 1, R::ZERO);
    derive(slopes, 1, levels);
    forward_strip::<R, L>(slopes, 1, R::ZERO);
}

// Sets the word of each lost symbol to the inverse of the slope at its place, and to 0 where that is 0.
fn invert_lost<R: StoredBytes, L: Level<R>>(
    words: &mut [R],
    slopes: &[R],
    code: &TransformCode,
    present: &[bool],
)
    requires flags { length present.now ≡ code.now.data_shards + code.now.parity_shards }
    requires long { length words.old ≤ length slopes.now }
    ensures long { length words.new ≡ length words.old }
    ensures inverses { AreInverted (level_element R.Stored.number L.LEVEL) R.Stored.number R.ZERO L.LEVEL
        (is_lost code.now.data_shards code.now.levels code.now.parity_shards present.now) (length words.old) slopes.now words.old words.new }
{
    for p in 0..words.len() {
        words[p] = inverse_or::<R, L>(is_lost(code, present, p), slopes[p], words[p]);
    }
}

// The inverse of a slope where a symbol is lost, and else the word.
fn inverse_or<R: StoredBytes, L: Level<R>>(lost: bool, slope: R, word: R) -> R
    ensures lost { lost ≡ true → level_element R.Stored.number L.LEVEL slope ≢ 0
        → tower_mul L.LEVEL (level_element R.Stored.number L.LEVEL slope) (R.Stored.number result) ≡ 1 }
    ensures known { lost ≡ false → result ≡ word }
{
    if lost {
        L::invert(L::truncate(slope))
    } else {
        word
    }
}

// Sets word i to the value at point i, for twice as many points as places, of the locator of the lost symbols among the places from `first`
// on, of which there are 2^levels. The space is to compute in: where the places are few, none is needed.
#[cycle(halves)]
fn set_locator<R: StoredBytes, L: Level<R>>(
    values: &mut [R],
    space: &mut [R],
    code: &TransformCode,
    present: &[bool],
    points: &[R],
    first: usize,
    levels: usize,
)
    requires flags { length present.now ≡ code.now.data_shards + code.now.parity_shards }
    requires points { ArePoints R.Stored.number R.ZERO L.LEVEL points.now }
    requires size { length values.old ≡ 2 ^ (levels + 1) }
    requires few { levels + 1 ≤ 2 ^ L.LEVEL }
    requires low { levels ≤ 16 }
    requires inside { first + 2 ^ levels ≤ length points.now }
    requires table { levels ≤ 4 → length values.old ≤ length points.now }
    requires room { 5 ≤ levels → length values.old ≤ length space.old }
    ensures long { length values.new ≡ length values.old }
    ensures space_long { length space.new ≡ length space.old }
    ensures locator { HoldLocator R.Stored.number R.ZERO L.LEVEL code.now.data_shards code.now.levels code.now.parity_shards present.now
        first (2 ^ levels) values.new }
{
    if levels <= DIRECT_LEVELS {
        set_products::<R, L>(values, code, present, points, first, power_of(levels));
        return;
    }
    let half = levels - 1;
    let (others, _rest) = space.split_at_mut(values.len());
    set_extended::<R, L>(values, code, present, points, first, half);
    set_extended::<R, L>(others, code, present, points, first + power_of(half), half);
    multiply_each::<R, L>(values, others);
}

// `set_locator` at four times as many points as places. The values are the elements that the words hold, by their low bits.
#[cycle(halves)]
fn set_extended<R: StoredBytes, L: Level<R>>(
    values: &mut [R],
    code: &TransformCode,
    present: &[bool],
    points: &[R],
    first: usize,
    levels: usize,
)
    requires flags { length present.now ≡ code.now.data_shards + code.now.parity_shards }
    requires points { ArePoints R.Stored.number R.ZERO L.LEVEL points.now }
    requires size { length values.old ≡ 2 ^ (levels + 2) }
    requires few { levels + 2 ≤ 2 ^ L.LEVEL }
    requires low { levels ≤ 15 }
    requires inside { first + 2 ^ levels ≤ length points.now }
    requires table { levels ≤ 4 → 2 ^ (levels + 1) ≤ length points.now }
    ensures long { length values.new ≡ length values.old }
    ensures locator { HoldLocator (level_element R.Stored.number L.LEVEL) R.ZERO L.LEVEL code.now.data_shards code.now.levels
        code.now.parity_shards present.now first (2 ^ levels) values.new }
{
    let (known, others) = values.split_at_mut(power_of(levels + 1));
    set_locator::<R, L>(known, others, code, present, points, first, levels);
    extend::<R, L>(known, others, levels + 1);
}

// Sets the others to the values at the next points of the polynomial of 2^levels coefficients that has the known values at as many points.
fn extend<R: StoredBytes, L: Level<R>>(known: &[R], others: &mut [R], levels: usize)
    requires size { length known.now ≡ 2 ^ levels }
    requires same { length others.old ≡ 2 ^ levels }
    requires few { levels ≤ 2 ^ L.LEVEL }
    requires low { levels ≤ 16 }
    ensures long { length others.new ≡ length others.old }
    ensures values { AreExtended (level_element R.Stored.number L.LEVEL) R.ZERO L.LEVEL levels known.now others.new }
{
    others.copy_from_slice(known);
    inverse_strip::<R, L>(others, 1, R::ZERO);
    forward_strip::<R, L>(others, 1, point_of::<R, L>(power_of(levels)));
}

// Sets each value to the product of the differences of its point and those of the lost symbols, of `count` places from `first` on.
fn set_products<R: StoredBytes, L: Level<R>>(
    values: &mut [R],
    code: &TransformCode,
    present: &[bool],
    points: &[R],
    first: usize,
    count: usize,
)
    requires flags { length present.now ≡ code.now.data_shards + code.now.parity_shards }
    requires points { ArePoints R.Stored.number R.ZERO L.LEVEL points.now }
    requires inside { first + count ≤ length points.now }
    requires table { length values.old ≤ length points.now }
    ensures long { length values.new ≡ length values.old }
    ensures locator { HoldLocator R.Stored.number R.ZERO L.LEVEL code.now.data_shards code.now.levels code.now.parity_shards present.now
        first count values.new }
{
    set_ones(values);
    for p in 0..count {
        if is_lost(code, present, first + p) {
            multiply_differences::<R, L>(values, points, points[first + p]);
        }
    }
}

// Sets each word to 1.
fn set_ones<R: StoredBytes>(words: &mut [R])
    ensures long { length words.new ≡ length words.old }
    ensures ones { (i : ℕ) → i < length words.old → slice_index_or words.new i R.ZERO ≡ R.ONE }
{
    for i in 0..words.len() {
        words[i] = R::ONE;
    }
}

// Multiplies each value by the difference of its point and x.
fn multiply_differences<R: StoredBytes, L: Level<R>>(values: &mut [R], points: &[R], x: R)
    requires { length values.old ≤ length points.now }
    ensures long { length values.new ≡ length values.old }
    ensures products { AreDifferences R.Stored.number R.ZERO L.LEVEL (R.Stored.number x) (length values.old) points.now values.old
        values.new }
{
    for i in 0..values.len() {
        values[i] = L::multiply(points[i].xor(x), values[i]);
    }
}
