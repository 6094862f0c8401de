// Transforms of stored words, the symbols of the columns of a strip, over a level of the tower.
ghost use Rattle.std.specs.Prelude.{◌≡◌, ◌*◌, ◌^◌, ◌<◌, ◌≤◌, ℕ, true, length};
ghost use Rattle.additive_transforms.specs.Columns.{FitsColumns};
ghost use Rattle.field_base.specs.Tower.{tower_mul};
ghost use Rattle.additive_transforms.specs.Words.{level_element};
ghost use Rattle.reed_solomon.specs.Columns.{AreWordCoefficients, HoldFirstValues, HoldWordValues, HoldZeros};

use crate::points::point_of;
use crate::strips::least;
use crate::transform_codec::power_of;
use additive_transforms::{StoredBytes, forward_level_columns, inverse_level_columns, level_shift};
use field_base::Unsigned;
use word_tower::Level;

// An inverse transform of at most 2^4 rows is not split.
const WHOLE_LEVELS: usize = 4;

// From the coefficients of each column to the values at the points from `z` on.
pub(crate) fn forward_strip<R: StoredBytes, L: Level<R>>(words: &mut [R], columns: usize, z: R)
    requires { FitsColumns (2 ^ L.LEVEL) columns (length words.old) }
    ensures length { length words.new ≡ length words.old }
    ensures values { (c : ℕ) → c < columns → HoldWordValues (level_element R.Stored.number L.LEVEL) L.LEVEL (R.Stored.number z) columns c
        words.old words.new }
{
    forward_level_columns::<R, L, R>(words, columns, z);
}

// From those values to the coefficients.
pub(crate) fn inverse_strip<R: StoredBytes, L: Level<R>>(words: &mut [R], columns: usize, z: R)
    requires { FitsColumns (2 ^ L.LEVEL) columns (length words.old) }
    ensures coefficients { (c : ℕ) → c < columns → AreWordCoefficients (level_element R.Stored.number L.LEVEL) L.LEVEL (R.Stored.number z)
        columns c words.old words.new }
    ensures length { length words.new ≡ length words.old }
{
    inverse_level_columns::<R, L, R>(words, columns, z);
}

// From the coefficients of each column to the values at the first 2^few points from `z` on, in as many rows; the rows behind them are space.
// A stage of which the lower half alone is needed is a transform of two rows, the halves of all words.
#[cycle(first)]
pub(crate) fn forward_first<R: StoredBytes, L: Level<R>>(
    words: &mut [R],
    columns: usize,
    levels: usize,
    few: usize,
    z: R,
)
    requires some { 0 < columns }
    requires rows { length words.old ≡ 2 ^ levels * columns }
    requires points { levels ≤ 2 ^ L.LEVEL }
    requires low { levels ≤ 16 }
    requires first { few ≤ levels }
    ensures length { length words.new ≡ length words.old }
    ensures values { (c : ℕ) → c < columns → HoldFirstValues (level_element R.Stored.number L.LEVEL) R.ZERO L.LEVEL levels few
        (R.Stored.number z) columns c words.old words.new }
{
    if levels == few {
        forward_strip::<R, L>(words, columns, z);
        return;
    }
    let stage = levels - 1;
    let half = words.len() / 2;
    forward_strip::<R, L>(words, half, level_shift::<R, L>(z, stage));
    let (lower, _upper) = words.split_at_mut(half);
    forward_first::<R, L>(lower, columns, stage, few, z);
}

// From the values at the points from `z` on to the coefficients, where the rows from row `known` on hold zeros. Zeros have zeros as their
// coefficients, so that nothing is done for an upper half of them. The top stage alone is a transform of two rows, the halves of all words.
#[cycle(known)]
pub(crate) fn inverse_known<R: StoredBytes, L: Level<R>>(
    words: &mut [R],
    columns: usize,
    levels: usize,
    known: usize,
    z: R,
)
    requires some { 0 < columns }
    requires rows { length words.old ≡ 2 ^ levels * columns }
    requires points { levels ≤ 2 ^ L.LEVEL }
    requires low { levels ≤ 16 }
    requires zeros { HoldZeros R.ZERO columns known (2 ^ levels) words.old }
    ensures length { length words.new ≡ length words.old }
    ensures coefficients { (c : ℕ) → c < columns → AreWordCoefficients (level_element R.Stored.number L.LEVEL) L.LEVEL (R.Stored.number z)
        columns c words.old words.new }
{
    if known == 0 {
        return;
    }
    if !is_split(levels, known) {
        inverse_strip::<R, L>(words, columns, z);
        return;
    }
    let stage = levels - 1;
    let rows = power_of(stage);
    let below = least(known, rows);
    let half = words.len() / 2;
    let (lower, upper) = words.split_at_mut(half);
    inverse_known::<R, L>(lower, columns, stage, below, z);
    let behind = z.xor(point_of::<R, L>(rows));
    inverse_known::<R, L>(upper, columns, stage, known - below, behind);
    inverse_strip::<R, L>(words, half, level_shift::<R, L>(z, stage));
}

// Whether an inverse transform of 2^levels rows, of which so many are known, is done by halves: where a quarter or more is zero.
fn is_split(levels: usize, known: usize) -> bool
    requires low { levels ≤ 16 }
    ensures some { result ≡ true → 0 < levels }
{
    levels > WHOLE_LEVELS && known <= 3 * power_of(levels - 2)
}
