// Lost shards, strip by strip, by two transforms. The product of a word's polynomial and the locator of its lost symbols is known at all
// points, since it is 0 at the lost ones, so that an inverse transform gives its coefficients. The derivative of the product is, at a lost
// point, the lost symbol times the locator of the other lost ones. It is computed as far as the last of those that a shard has.
ghost use Rattle.std.specs.Prelude.{◌≡◌, ◌⊎◌, ℕ, ◌+◌, ◌-◌, ◌*◌, ◌^◌, ◌<◌, ◌≤◌, length, slice_index_or};
ghost use Rattle.additive_transforms.specs.Words.{level_element};
ghost use Rattle.reed_solomon.specs.Columns.{IsOutside};
ghost use Rattle.reed_solomon.specs.Restoring.{AreMended, FitRestoring, IsAtHand, RestoresSymbols, word_at};

use crate::columns::{copy_words, gather};
use crate::derivatives::derive_first;
use crate::points::places_to_last;
use crate::products::multiply_rows;
use crate::strips::Strip;
use crate::transform_codec::{TransformCode, levels_of, power_of};
use crate::transforms::{forward_strip, inverse_known};
use additive_transforms::StoredBytes;
use field_base::Unsigned;
use word_tower::Level;

// Sets the values, a row for each point, to the words of a strip.
fn read_strip<R: Unsigned>(
    values: &mut [R],
    code: &TransformCode,
    shards: &[R],
    parity: &[R],
    strip: Strip,
)
    requires whole { length shards.now ≡ code.now.data_shards * strip.size }
    requires parity_whole { length parity.now ≡ code.now.parity_shards * strip.size }
    requires rows { length values.old ≡ 2 ^ code.now.all_levels * strip.width }
    ensures long { length values.new ≡ length values.old }
    ensures words { (p c : ℕ) → p < 2 ^ code.now.all_levels → c < strip.width → slice_index_or values.new (p * strip.width + c) R.ZERO
        ≡ word_at R.ZERO code.now.data_shards code.now.levels code.now.parity_shards strip.size (strip.start + c) shards.now parity.now p }
{
    let first = code.coefficient_count();
    let behind = code.point_count() - first;
    let (of_data, others) = values.split_at_mut(first * strip.width);
    gather(of_data, first, shards, code.data_shards, strip);
    gather(others, behind, parity, code.parity_shards, strip);
}

// Writes the rows from row `from` on to the missing shards in a strip, whose flags begin at `first`.
fn mend<R: Unsigned>(
    shards: &mut [R],
    values: &[R],
    present: &[bool],
    count: usize,
    strip: Strip,
    from: usize,
    first: usize,
)
    requires whole { length shards.old ≡ count * strip.size }
    requires flags { first + count ≤ length present.now }
    requires enough { (from + count) * strip.width ≤ length values.now }
    ensures long { length shards.new ≡ length shards.old }
    ensures mended { AreMended R.ZERO strip.size strip.start strip.width count from first present.now values.now shards.old shards.new }
{
    for i in 0..count {
        if !present[first + i] {
            let place = i * strip.size + strip.start;
            copy_words(shards, place, values, (from + i) * strip.width, strip.width);
        }
    }
}

// Restores the columns of a strip.
pub(crate) fn restore_strip<R: StoredBytes, L: Level<R>>(
    code: &TransformCode,
    present: &[bool],
    values: &mut [R],
    factors: &[R],
    shards: &mut [R],
    parity: &mut [R],
    strip: Strip,
)
    requires fit { FitRestoring R.Stored.number R.ZERO L.LEVEL code.now.levels code.now.data_shards code.now.parity_shards strip.size
        code.now.all_levels present.now (length shards.old) (length parity.old) factors.now }
    requires rows { length values.old ≡ 2 ^ code.now.all_levels * strip.width }
    ensures values_long { length values.new ≡ length values.old }
    ensures long { length shards.new ≡ length shards.old }
    ensures parity_long { length parity.new ≡ length parity.old }
    ensures kept { (i c : ℕ) → c < strip.size → (IsOutside strip.start strip.width c) ⊎ (IsAtHand present.now i)
        → slice_index_or shards.new (i * strip.size + c) R.ZERO ≡ slice_index_or shards.old (i * strip.size + c) R.ZERO }
    ensures parity_kept { (t c : ℕ) → c < strip.size
        → (IsOutside strip.start strip.width c) ⊎ (IsAtHand present.now (code.now.data_shards + t))
        → slice_index_or parity.new (t * strip.size + c) R.ZERO ≡ slice_index_or parity.old (t * strip.size + c) R.ZERO }
    ensures restored { (c : ℕ) → c < strip.width → RestoresSymbols (level_element R.Stored.number L.LEVEL) R.ZERO L.LEVEL code.now.levels
        code.now.data_shards code.now.parity_shards strip.size present.now (strip.start + c) shards.old parity.old shards.new parity.new }
{
    let count = code.point_count();
    let width = strip.width;
    read_strip(values, code, shards, parity, strip);
    multiply_rows::<R, L>(values, count, width, factors, code, present, false);
    // Behind the points of the parity the product is 0.
    let first = code.coefficient_count();
    let known = first + code.parity_shards;
    inverse_known::<R, L>(values, width, code.all_levels, known, R::ZERO);
    // Up to the last lost symbol.
    let reach = levels_of(places_to_last(code, present));
    let words = derive_first(values, width, code.all_levels, reach);
    let (symbols, _others) = values.split_at_mut(words);
    forward_strip::<R, L>(symbols, width, R::ZERO);
    let rows = power_of(reach);
    multiply_rows::<R, L>(symbols, rows, width, factors, code, present, true);
    mend(shards, values, present, code.data_shards, strip, 0, 0);
    mend(
        parity,
        values,
        present,
        code.parity_shards,
        strip,
        first,
        code.data_shards,
    );
}
