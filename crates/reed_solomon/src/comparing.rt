// Whether shards of parity are those of the data, strip by strip.
ghost use Rattle.std.specs.Prelude.{◌≡◌, ◌↔◌, ℕ, ◌+◌, ◌*◌, ◌^◌, ◌<◌, ◌≤◌, IsTrue, length, slice_index_or};
ghost use Rattle.additive_transforms.specs.Words.{level_element};
ghost use Rattle.reed_solomon.specs.Codes.{AreCodedColumns, IsCodedColumn, shard_symbol};
ghost use Rattle.reed_solomon.specs.Columns.{FitEncoding};

use crate::encoding::{interpolate, write_parity};
use crate::strips::{Strip, columns_at_once, strip_at};
use crate::transform_codec::TransformCode;
use additive_transforms::StoredBytes;
use field_base::Unsigned;
use word_tower::Level;

// Whether each column is a code word. As many are computed at once as there is space for.
pub(crate) fn are_coded<R: StoredBytes, L: Level<R>>(
    code: &TransformCode,
    space: &mut [R],
    shards: &[R],
    parity: &[R],
    size: usize,
) -> bool
    requires fit { FitEncoding L.LEVEL code.now.levels code.now.data_shards code.now.parity_shards size (length shards.now)
        (length parity.now) }
    requires room { 2 * 2 ^ code.now.levels + code.now.parity_shards ≤ length space.old }
    ensures { IsTrue result ↔ AreCodedColumns (level_element R.Stored.number L.LEVEL) R.ZERO L.LEVEL code.now.levels code.now.data_shards
        code.now.parity_shards size shards.now parity.now }
{
    let needed = 2 * code.coefficient_count() + code.parity_shards;
    let most = columns_at_once(space.len(), needed);
    let mut start = 0;
    while start < size {
        let strip = strip_at(size, start, most);
        if !is_coded_strip::<R, L>(code, space, shards, parity, strip) {
            return false;
        }
        start += strip.width;
    }
    true
}

// Whether the columns of a strip are code words.
fn is_coded_strip<R: StoredBytes, L: Level<R>>(
    code: &TransformCode,
    space: &mut [R],
    shards: &[R],
    parity: &[R],
    strip: Strip,
) -> bool
    requires fit { FitEncoding L.LEVEL code.now.levels code.now.data_shards code.now.parity_shards strip.size (length shards.now)
        (length parity.now) }
    requires room { strip.width * (2 * 2 ^ code.now.levels + code.now.parity_shards) ≤ length space.old }
    ensures long { length space.new ≡ length space.old }
    ensures answer { let element = level_element R.Stored.number L.LEVEL in IsTrue result ↔ ((c : ℕ) → c < strip.width
        → IsCodedColumn L.LEVEL code.now.levels code.now.data_shards code.now.parity_shards
        (shard_symbol element R.ZERO strip.size shards.now (strip.start + c))
        (shard_symbol element R.ZERO strip.size parity.now (strip.start + c))) }
{
    let words = code.coefficient_count() * strip.width;
    let (coefficients, rest) = space.split_at_mut(words);
    let (block, others) = rest.split_at_mut(words);
    let (symbols, _rest) = others.split_at_mut(code.parity_shards * strip.width);
    interpolate::<R, L>(code, coefficients, shards, strip);
    let rows = Strip {
        size: strip.width,
        start: 0,
        width: strip.width,
    };
    write_parity::<R, L>(code, coefficients, block, symbols, rows);
    are_of_strip::<R, L>(symbols, parity, code.parity_shards, strip)
}

// Whether rows of symbols, one for each of so many shards, are those of a strip.
fn are_of_strip<R: Unsigned, L: Level<R>>(
    symbols: &[R],
    shards: &[R],
    count: usize,
    strip: Strip,
) -> bool
    requires rows { length symbols.now ≡ count * strip.width }
    requires whole { length shards.now ≡ count * strip.size }
    ensures { let element = level_element R.number L.LEVEL in
        IsTrue result ↔ ((i c : ℕ) → i < count → c < strip.width → shard_symbol element R.ZERO strip.size shards.now (strip.start + c) i
        ≡ shard_symbol element R.ZERO strip.width symbols.now c i) }
{
    for i in 0..count {
        let from = i * strip.width;
        let place = i * strip.size + strip.start;
        if !same_words::<R, L>(symbols, from, shards, place, strip.width) {
            return false;
        }
    }
    true
}

// Whether `count` words of two slices, from places `from` and `place` on, have the same elements.
fn same_words<R: Unsigned, L: Level<R>>(
    one: &[R],
    from: usize,
    other: &[R],
    place: usize,
    count: usize,
) -> bool
    requires enough { from + count ≤ length one.now }
    requires room { place + count ≤ length other.now }
    ensures { let element = level_element R.number L.LEVEL in
        IsTrue result ↔ ((c : ℕ) → c < count → element (slice_index_or other.now (place + c) R.ZERO)
        ≡ element (slice_index_or one.now (from + c) R.ZERO)) }
{
    for c in 0..count {
        let same = L::truncate(other[place + c]) == L::truncate(one[from + c]);
        if !same {
            return false;
        }
    }
    true
}
