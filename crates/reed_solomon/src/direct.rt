// Few missing shards, one after the other: each is a sum of multiples of those at hand. Of a polynomial of fewer than 2^r - 1 coefficients the
// values at the 2^r points add up to 0; the product of a word's polynomial and the locator of all lost symbols but one is such, and is 0 at the
// other lost ones.
ghost use Rattle.std.specs.Prelude.{◌≡◌, ◌≢◌, ◌⊎◌, ℕ, ◌+◌, ◌*◌, ◌^◌, ◌<◌, ◌≤◌, true, length, slice_index_or, bit_xor};
ghost use Rattle.field_base.specs.Tower.{tower_mul};
ghost use Rattle.additive_transforms.specs.Words.{level_element};
ghost use Rattle.reed_solomon.specs.Direct.{ArePutAtPlace, AreKnownWeights, IsRestoredPlace, IsSummedPlace, known_sum, known_term};
ghost use Rattle.reed_solomon.specs.Restoring.{AreFactors, AreRestoredColumns, FitRestoring, is_lost, word_at};

use crate::columns::{clear_words, copy_words};
use crate::points::{is_lost, point_of};
use crate::products::add_products;
use crate::strips::{Strip, least, strip_at};
use crate::transform_codec::TransformCode;
use additive_transforms::StoredBytes;
use field_base::Unsigned;
use word_tower::Level;

// So many words of a shard are summed at once: they stay in the cache while all others are read.
const MOST_WORDS: usize = 2048;

// Sums are made of so many shards, for each place of a shard at which there is a point, at most. With shards of 64 KiB transforms take as long
// as sums of five shards of a code of 1,000 and 200, which has 1.7 points a shard, and as of six of one of 100 and 30, which has 2.
const MOST_SUMS: usize = 3;

// A weight takes as long as so many products of a row.
const WEIGHT_WORDS: usize = 128;

// Whether so many missing shards of a size are restored faster as sums than by transforms.
pub(crate) fn are_few(code: &TransformCode, missing: usize, size: usize) -> bool {
    let columns = least(size, MOST_WORDS);
    let shards = code.data_shards + code.parity_shards;
    missing <= MOST_SUMS * code.point_count() * columns / ((columns + WEIGHT_WORDS) * shards)
}

// Restores the lost symbols one shard after the other. The space is to compute in.
pub(crate) fn restore_places<R: StoredBytes, L: Level<R>>(
    code: &TransformCode,
    present: &[bool],
    factors: &[R],
    space: &mut [R],
    shards: &mut [R],
    parity: &mut [R],
    size: usize,
)
    requires fit { FitRestoring R.Stored.number R.ZERO L.LEVEL code.now.levels code.now.data_shards code.now.parity_shards size
        code.now.all_levels present.now (length shards.old) (length parity.old) factors.now }
    requires room { 2 ^ code.now.all_levels < length space.old }
    ensures long { length shards.new ≡ length shards.old }
    ensures parity_long { length parity.new ≡ length parity.old }
    ensures restored { AreRestoredColumns (level_element R.Stored.number L.LEVEL) R.ZERO L.LEVEL code.now.levels code.now.data_shards
        code.now.parity_shards size present.now size shards.old parity.old shards.new parity.new }
{
    for p in 0..code.coefficient_count() + code.parity_shards {
        restore_if_lost::<R, L>(code, present, factors, space, shards, parity, size, p);
    }
}

// Restores the symbols at place p, if they are lost.
fn restore_if_lost<R: StoredBytes, L: Level<R>>(
    code: &TransformCode,
    present: &[bool],
    factors: &[R],
    space: &mut [R],
    shards: &mut [R],
    parity: &mut [R],
    size: usize,
    p: usize,
)
    requires fit { FitRestoring R.Stored.number R.ZERO L.LEVEL code.now.levels code.now.data_shards code.now.parity_shards size
        code.now.all_levels present.now (length shards.old) (length parity.old) factors.now }
    requires room { 2 ^ code.now.all_levels < length space.old }
    requires place { p < 2 ^ code.now.levels + code.now.parity_shards }
    ensures space_long { length space.new ≡ length space.old }
    ensures long { length shards.new ≡ length shards.old }
    ensures parity_long { length parity.new ≡ length parity.old }
    ensures restored { IsRestoredPlace (level_element R.Stored.number L.LEVEL) R.ZERO L.LEVEL code.now.data_shards code.now.levels
        code.now.parity_shards size (is_lost code.now.data_shards code.now.levels code.now.parity_shards present.now) p
        shards.old parity.old shards.new parity.new }
{
    if !is_lost(code, present, p) {
        return;
    }
    let (weights, row) = space.split_at_mut(code.point_count());
    set_weights::<R, L>(weights, factors, code, present, p);
    restore_place::<R, L>(code, present, weights, row, shards, parity, size, p);
}

// Sets the word of each known place to its weight in the symbol at place p, which is lost.
fn set_weights<R: StoredBytes, L: Level<R>>(
    weights: &mut [R],
    factors: &[R],
    code: &TransformCode,
    present: &[bool],
    p: usize,
)
    requires flags { length present.now ≡ code.now.data_shards + code.now.parity_shards }
    requires points { code.now.all_levels ≤ 2 ^ L.LEVEL }
    requires long { length weights.old ≡ 2 ^ code.now.all_levels }
    requires factors_long { length factors.now ≡ 2 ^ code.now.all_levels }
    requires all { AreFactors R.Stored.number R.ZERO L.LEVEL code.now.data_shards code.now.levels code.now.parity_shards present.now
        (2 ^ code.now.all_levels) factors.now }
    requires place { p < 2 ^ code.now.all_levels }
    requires lost { is_lost code.now.data_shards code.now.levels code.now.parity_shards present.now p ≡ true }
    ensures long { length weights.new ≡ length weights.old }
    ensures weights { AreKnownWeights R.Stored.number R.ZERO L.LEVEL code.now.all_levels
        (is_lost code.now.data_shards code.now.levels code.now.parity_shards present.now) p
        (R.Stored.number (slice_index_or factors.now p R.ZERO)) (2 ^ code.now.all_levels) weights.new }
{
    let own = factors[p];
    let x = point_of::<R, L>(p);
    for q in 0..weights.len() {
        weights[q] = weight_of::<R, L>(own, factors[q], point_of::<R, L>(q).xor(x));
    }
}

// The product of two factors over a difference.
fn weight_of<R: StoredBytes, L: Level<R>>(own: R, factor: R, difference: R) -> R
    ensures { (rest : ℕ) → R.Stored.number difference < 2 ^ 2 ^ L.LEVEL → R.Stored.number difference ≢ 0
        → R.Stored.number factor ≡ tower_mul L.LEVEL (R.Stored.number difference) rest
        → R.Stored.number result ≡ tower_mul L.LEVEL (R.Stored.number own) rest }
{
    let inverse = L::invert(L::truncate(difference));
    L::multiply(own, L::multiply(inverse, factor))
}

// Restores the symbols at place p, strip by strip.
fn restore_place<R: StoredBytes, L: Level<R>>(
    code: &TransformCode,
    present: &[bool],
    weights: &[R],
    row: &mut [R],
    shards: &mut [R],
    parity: &mut [R],
    size: usize,
    p: usize,
)
    requires flags { length present.now ≡ code.now.data_shards + code.now.parity_shards }
    requires whole { length shards.old ≡ code.now.data_shards * size }
    requires parity_whole { length parity.old ≡ code.now.parity_shards * size }
    requires long { length weights.now ≡ 2 ^ code.now.all_levels }
    requires some { 0 < length row.old }
    requires place { p < 2 ^ code.now.levels + code.now.parity_shards }
    requires lost { is_lost code.now.data_shards code.now.levels code.now.parity_shards present.now p ≡ true }
    ensures row_long { length row.new ≡ length row.old }
    ensures long { length shards.new ≡ length shards.old }
    ensures parity_long { length parity.new ≡ length parity.old }
    ensures summed { IsSummedPlace R.Stored.number R.ZERO L.LEVEL code.now.data_shards code.now.levels code.now.parity_shards size
        code.now.all_levels p (is_lost code.now.data_shards code.now.levels code.now.parity_shards present.now) weights.now size
        shards.old parity.old shards.new parity.new }
{
    let most = least(row.len(), MOST_WORDS);
    let mut start = 0;
    while start < size {
        let strip = strip_at(size, start, most);
        let (sums, _rest) = row.split_at_mut(strip.width);
        sum_known::<R, L>(sums, code, present, weights, shards, parity, strip);
        put_at_place(code, shards, parity, sums, strip, p);
        start += strip.width;
    }
}

// Sets the words of a row to the sums over the known places in a strip.
fn sum_known<R: StoredBytes, L: Level<R>>(
    sums: &mut [R],
    code: &TransformCode,
    present: &[bool],
    weights: &[R],
    shards: &[R],
    parity: &[R],
    strip: Strip,
)
    requires flags { length present.now ≡ code.now.data_shards + code.now.parity_shards }
    requires row { length sums.old ≡ strip.width }
    requires whole { length shards.now ≡ code.now.data_shards * strip.size }
    requires parity_whole { length parity.now ≡ code.now.parity_shards * strip.size }
    ensures long { length sums.new ≡ length sums.old }
    ensures sums { (c : ℕ) → c < strip.width → R.Stored.number (slice_index_or sums.new c R.ZERO)
        ≡ known_sum R.Stored.number R.ZERO L.LEVEL (is_lost code.now.data_shards code.now.levels code.now.parity_shards present.now)
        weights.now (word_at R.ZERO code.now.data_shards code.now.levels code.now.parity_shards strip.size (strip.start + c)
        shards.now parity.now) (length weights.now) }
{
    clear_words(sums, 0, strip.width);
    for q in 0..weights.len() {
        add_place::<R, L>(sums, code, present, weights[q], shards, parity, strip, q);
    }
}

// Adds the products of the words at place q in a strip by a weight, if they are known: those that are in no shard are 0.
fn add_place<R: StoredBytes, L: Level<R>>(
    sums: &mut [R],
    code: &TransformCode,
    present: &[bool],
    weight: R,
    shards: &[R],
    parity: &[R],
    strip: Strip,
    q: usize,
)
    requires flags { length present.now ≡ code.now.data_shards + code.now.parity_shards }
    requires row { length sums.old ≡ strip.width }
    requires whole { length shards.now ≡ code.now.data_shards * strip.size }
    requires parity_whole { length parity.now ≡ code.now.parity_shards * strip.size }
    ensures long { length sums.new ≡ length sums.old }
    ensures added { (c : ℕ) → c < strip.width → R.Stored.number (slice_index_or sums.new c R.ZERO)
        ≡ bit_xor (R.Stored.number (slice_index_or sums.old c R.ZERO)) (known_term (tower_mul L.LEVEL)
        (is_lost code.now.data_shards code.now.levels code.now.parity_shards present.now) (λ p. R.Stored.number weight)
        (λ p. R.Stored.number (word_at R.ZERO code.now.data_shards code.now.levels code.now.parity_shards strip.size (strip.start + c)
        shards.now parity.now p)) q) }
{
    if is_lost(code, present, q) {
        return;
    }
    if q < code.data_shards {
        let place = q * strip.size + strip.start;
        add_products::<R, L>(sums, shards, place, weight);
        return;
    }
    let first = code.coefficient_count();
    if q < first {
        return;
    }
    let place = (q - first) * strip.size + strip.start;
    add_products::<R, L>(sums, parity, place, weight);
}

// Writes a row to the place of a shard in a strip.
fn put_at_place<R: Unsigned>(
    code: &TransformCode,
    shards: &mut [R],
    parity: &mut [R],
    row: &[R],
    strip: Strip,
    p: usize,
)
    requires whole { length shards.old ≡ code.now.data_shards * strip.size }
    requires parity_whole { length parity.old ≡ code.now.parity_shards * strip.size }
    requires row { length row.now ≡ strip.width }
    requires place { (p < code.now.data_shards) ⊎ ((2 ^ code.now.levels ≤ p) × (p < 2 ^ code.now.levels + code.now.parity_shards)) }
    ensures long { length shards.new ≡ length shards.old }
    ensures parity_long { length parity.new ≡ length parity.old }
    ensures put { ArePutAtPlace R.ZERO code.now.data_shards code.now.levels code.now.parity_shards strip.size strip.start strip.width p
        row.now shards.old parity.old shards.new parity.new }
{
    if p < code.data_shards {
        let place = p * strip.size + strip.start;
        copy_words(shards, place, row, 0, strip.width);
        return;
    }
    let place = (p - code.coefficient_count()) * strip.size + strip.start;
    copy_words(parity, place, row, 0, strip.width);
}
