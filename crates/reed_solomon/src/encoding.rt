// The parity of shards of data, strip by strip.
ghost use Rattle.std.specs.Prelude.{◌≡◌, ◌⊎◌, ℕ, ◌+◌, ◌*◌, ◌^◌, ◌<◌, ◌≤◌, length, map, slice_index_or};
ghost use Rattle.additive_transforms.specs.Columns.{column_of};
ghost use Rattle.additive_transforms.specs.Words.{level_element};
ghost use Rattle.reed_solomon.specs.Codes.{AreCodedColumns, AreOfData, IsCodedColumn, shard_symbol};
ghost use Rattle.reed_solomon.specs.Columns.{AreParityBelow, FitEncoding, OthersAreKept};

use crate::columns::{gather, scatter};
use crate::points::point_of;
use crate::strips::{Strip, columns_at_once, least, strip_at};
use crate::transform_codec::{TransformCode, levels_of};
use crate::transforms::{forward_first, inverse_known};
use additive_transforms::StoredBytes;
use word_tower::Level;

// Sets the coefficients, in a row for each, to those of the polynomials of the columns of a strip of data.
pub(crate) fn interpolate<R: StoredBytes, L: Level<R>>(
    code: &TransformCode,
    coefficients: &mut [R],
    shards: &[R],
    strip: Strip,
)
    requires points { code.now.levels ≤ 2 ^ L.LEVEL }
    requires count { length coefficients.old ≡ 2 ^ code.now.levels * strip.width }
    requires whole { length shards.now ≡ code.now.data_shards * strip.size }
    ensures long { length coefficients.new ≡ length coefficients.old }
    ensures of_data { let element = level_element R.Stored.number L.LEVEL in (c : ℕ) → c < strip.width
        → AreOfData L.LEVEL code.now.levels code.now.data_shards (shard_symbol element R.ZERO strip.size shards.now (strip.start + c))
        (column_of strip.width c (map element coefficients.new)) }
{
    gather(
        coefficients,
        code.coefficient_count(),
        shards,
        code.data_shards,
        strip,
    );
    inverse_known::<R, L>(
        coefficients,
        strip.width,
        code.levels,
        code.data_shards,
        R::ZERO,
    );
}

// Writes the symbols of parity in the columns of a strip, the values of the polynomials of the coefficients, by blocks of as many points as
// there are of those: the data have block 0. The block is space to compute in.
pub(crate) fn write_parity<R: StoredBytes, L: Level<R>>(
    code: &TransformCode,
    coefficients: &[R],
    block: &mut [R],
    parity: &mut [R],
    strip: Strip,
)
    requires points { code.now.levels ≤ 2 ^ L.LEVEL }
    requires count { length coefficients.now ≡ 2 ^ code.now.levels * strip.width }
    requires block { length block.old ≡ 2 ^ code.now.levels * strip.width }
    requires whole { length parity.old ≡ code.now.parity_shards * strip.size }
    ensures block_long { length block.new ≡ length block.old }
    ensures long { length parity.new ≡ length parity.old }
    ensures others { OthersAreKept R.ZERO strip.size strip.start strip.width parity.old parity.new }
    ensures written { let element = level_element R.Stored.number L.LEVEL in (c : ℕ) → c < strip.width
        → AreParityBelow element R.ZERO L.LEVEL code.now.levels code.now.parity_shards strip.size (strip.start + c)
        (column_of strip.width c (map element coefficients.now)) code.now.parity_shards parity.new }
{
    let points = code.coefficient_count();
    let blocks = (code.parity_shards - 1) / points + 1;
    for number in 0..blocks {
        block.copy_from_slice(coefficients);
        let behind = point_of::<R, L>((number + 1) * points);
        let first = number * points;
        let taken = least(points, code.parity_shards - first);
        let few = levels_of(taken);
        forward_first::<R, L>(block, strip.width, code.levels, few, behind);
        scatter(block, parity, code.parity_shards, strip, first, taken);
    }
}

// Encodes the columns of a strip.
fn encode_strip<R: StoredBytes, L: Level<R>>(
    code: &TransformCode,
    space: &mut [R],
    shards: &[R],
    parity: &mut [R],
    strip: Strip,
)
    requires fit { FitEncoding L.LEVEL code.now.levels code.now.data_shards code.now.parity_shards strip.size (length shards.now)
        (length parity.old) }
    requires room { strip.width * (2 * 2 ^ code.now.levels) ≤ length space.old }
    ensures space_long { length space.new ≡ length space.old }
    ensures long { length parity.new ≡ length parity.old }
    ensures others { OthersAreKept R.ZERO strip.size strip.start strip.width parity.old parity.new }
    ensures encoded { let element = level_element R.Stored.number L.LEVEL in (c : ℕ) → c < strip.width
        → IsCodedColumn L.LEVEL code.now.levels code.now.data_shards code.now.parity_shards
        (shard_symbol element R.ZERO strip.size shards.now (strip.start + c))
        (shard_symbol element R.ZERO strip.size parity.new (strip.start + c)) }
{
    let words = code.coefficient_count() * strip.width;
    let (coefficients, rest) = space.split_at_mut(words);
    let (block, _rest) = rest.split_at_mut(words);
    interpolate::<R, L>(code, coefficients, shards, strip);
    write_parity::<R, L>(code, coefficients, block, parity, strip);
}

// Encodes each column, as many at once as there is space for.
pub(crate) fn encode_columns<R: StoredBytes, L: Level<R>>(
    code: &TransformCode,
    space: &mut [R],
    shards: &[R],
    parity: &mut [R],
    size: usize,
)
    requires fit { FitEncoding L.LEVEL code.now.levels code.now.data_shards code.now.parity_shards size (length shards.now)
        (length parity.old) }
    requires room { 2 * 2 ^ code.now.levels ≤ length space.old }
    ensures long { length parity.new ≡ length parity.old }
    ensures encoded { AreCodedColumns (level_element R.Stored.number L.LEVEL) R.ZERO L.LEVEL code.now.levels code.now.data_shards
        code.now.parity_shards size shards.now parity.new }
{
    let most = columns_at_once(space.len(), 2 * code.coefficient_count());
    let mut start = 0;
    while start < size {
        let strip = strip_at(size, start, most);
        encode_strip::<R, L>(code, space, shards, parity, strip);
        start += strip.width;
    }
}
