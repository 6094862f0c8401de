// Products of words: of rows by one factor each, many words at once, written over them or added to others, and of two slices, word by word.
ghost use Rattle.std.specs.Prelude.{◌≡◌, ℕ, ◌+◌, ◌*◌, ◌^◌, ◌<◌, ◌≤◌, length, slice_index_or};
ghost use Rattle.field_base.specs.Tower.{tower_mul};
ghost use Rattle.additive_transforms.specs.Rows.{level_of};
ghost use Rattle.reed_solomon.specs.Columns.{AreRowProducts, ArePutProducts};
ghost use Rattle.reed_solomon.specs.Direct.{AreAddedProducts};
ghost use Rattle.reed_solomon.specs.Restoring.{is_lost};

use crate::columns::clear_words;
use crate::points::is_lost;
use crate::transform_codec::TransformCode;
use additive_transforms::{
    ByteMultiples, HalfMultiples, Pair, PlaneScalars, StoredBytes, WordPlanes, add_multiples,
    multiply_words,
};
use std::simd::prelude::*;
use word_tower::Level;

type Planes8 = u8x32;

type Multiples8 = ByteMultiples;

type Planes16 = Pair<Planes8>;

type Multiples16 = HalfMultiples<Multiples8>;

type Planes32 = Pair<Planes16>;

type Multiples32 = HalfMultiples<Multiples16>;

type Planes64 = Pair<Planes32>;

type Multiples64 = HalfMultiples<Multiples32>;

type Planes128 = Pair<Planes64>;

type Multiples128 = HalfMultiples<Multiples64>;

// The least number of words that are multiplied in planes.
const LEAST_IN_PLANES: usize = 32;

// Multiplies each of so many rows by the factor at its place where its symbol is lost, or, unless `lost`, where it is known, and sets the
// others to 0.
pub(crate) fn multiply_rows<R: StoredBytes, L: Level<R>>(
    values: &mut [R],
    rows: usize,
    width: usize,
    factors: &[R],
    code: &TransformCode,
    present: &[bool],
    lost: bool,
)
    requires flags { length present.now ≡ code.now.data_shards + code.now.parity_shards }
    requires rows { rows * width ≤ length values.old }
    requires factors { rows ≤ length factors.now }
    ensures long { length values.new ≡ length values.old }
    ensures products { AreRowProducts R.Stored.number R.ZERO L.LEVEL width rows
        (is_lost code.now.data_shards code.now.levels code.now.parity_shards present.now) lost factors.now values.old values.new }
{
    for p in 0..rows {
        if is_lost(code, present, p) == lost {
            multiply_at::<R, L>(values, p * width, width, factors[p]);
        } else {
            clear_words(values, p * width, width);
        }
    }
}

// Multiplies `count` words by a factor, from place `place` on.
fn multiply_at<R: StoredBytes, L: Level<R>>(words: &mut [R], place: usize, count: usize, factor: R)
    requires { place + count ≤ length words.old }
    ensures long { length words.new ≡ length words.old }
    ensures products { ArePutProducts R.Stored.number R.ZERO L.LEVEL place count (R.Stored.number factor) words.old words.new }
{
    let (_before, rest) = words.split_at_mut(place);
    let (row, _behind) = rest.split_at_mut(count);
    multiply_row::<R, L>(row, factor);
}

// Multiplies the words of a row by a factor: in planes as far as they fill vectors, and the others one after another.
fn multiply_row<R: StoredBytes, L: Level<R>>(row: &mut [R], factor: R)
    ensures long { length row.new ≡ length row.old }
    ensures products { ArePutProducts R.Stored.number R.ZERO L.LEVEL 0 (length row.old) (R.Stored.number factor) row.old row.new }
{
    let done = multiply_first::<R, L>(row, factor);
    for c in done..row.len() {
        row[c] = L::multiply(row[c], factor);
    }
}

// Multiplies the first words of a row by a factor, where a word has as many bits as the level: as many as fill vectors, and returns how
// many.
fn multiply_first<R: StoredBytes, L: Level<R>>(row: &mut [R], factor: R) -> usize
    ensures few { result ≤ length row.old }
    ensures long { length row.new ≡ length row.old }
    ensures products { ArePutProducts R.Stored.number R.ZERO L.LEVEL 0 result (R.Stored.number factor) row.old row.new }
{
    let words = R::in_sixteen();
    if row.len() < LEAST_IN_PLANES {
        0
    } else if words == 16 && L::LEVEL == 3 {
        multiply_in_planes::<R, L, Multiples8, Planes8>(row, factor)
    } else if words == 8 && L::LEVEL == 4 {
        multiply_in_planes::<R, L, Multiples16, Planes16>(row, factor)
    } else if words == 4 && L::LEVEL == 5 {
        multiply_in_planes::<R, L, Multiples32, Planes32>(row, factor)
    } else if words == 2 && L::LEVEL == 6 {
        multiply_in_planes::<R, L, Multiples64, Planes64>(row, factor)
    } else if words == 1 && L::LEVEL == 7 {
        multiply_in_planes::<R, L, Multiples128, Planes128>(row, factor)
    } else {
        0
    }
}

// Multiplies the first words by a factor, as many as fill vectors, and returns how many.
fn multiply_in_planes<
    R: StoredBytes,
    L: Level<R>,
    M: Copy,
    P: WordPlanes<R, R, M> + PlaneScalars<M>,
>(row: &mut [R], factor: R) -> usize
    requires size { R.WordBytes.size ≡ P.Planes.depth }
    requires level { level_of P.Planes.depth ≡ L.LEVEL }
    ensures few { result ≤ length row.old }
    ensures long { length row.new ≡ length row.old }
    ensures products { ArePutProducts R.Stored.number R.ZERO L.LEVEL 0 result (R.Stored.number factor) row.old row.new }
{
    let scalar = L::truncate(factor).to_u128();
    let multiples = P::multiples(scalar, 1 << L::LEVEL);
    multiply_words::<R, R, M, P>(row, &multiples)
}

// Multiplies each word by the one at its place.
pub(crate) fn multiply_each<R: StoredBytes, L: Level<R>>(words: &mut [R], factors: &[R])
    requires { length words.old ≤ length factors.now }
    ensures long { length words.new ≡ length words.old }
    ensures products { (i : ℕ) → i < length words.old → R.Stored.number (slice_index_or words.new i R.ZERO)
        ≡ tower_mul L.LEVEL (R.Stored.number (slice_index_or words.old i R.ZERO)) (R.Stored.number (slice_index_or factors.now i R.ZERO)) }
{
    for i in 0..words.len() {
        words[i] = L::multiply(words[i], factors[i]);
    }
}

// Adds the products of words from word `from` on by a factor to the sums.
pub(crate) fn add_products<R: StoredBytes, L: Level<R>>(
    sums: &mut [R],
    words: &[R],
    from: usize,
    factor: R,
)
    requires { from + length sums.old ≤ length words.now }
    ensures long { length sums.new ≡ length sums.old }
    ensures added { AreAddedProducts R.Stored.number R.ZERO L.LEVEL (R.Stored.number factor) from (length sums.old) words.now sums.old
        sums.new }
{
    let row = &words[from..from + sums.len()];
    add_row::<R, L>(sums, row, factor);
}

// Adds the product of a factor and the word at its place to each sum.
fn add_row<R: StoredBytes, L: Level<R>>(sums: &mut [R], row: &[R], factor: R)
    requires { length sums.old ≡ length row.now }
    ensures long { length sums.new ≡ length sums.old }
    ensures added { AreAddedProducts R.Stored.number R.ZERO L.LEVEL (R.Stored.number factor) 0 (length sums.old) row.now sums.old sums.new }
{
    let done = add_first::<R, L>(sums, row, factor);
    for c in done..sums.len() {
        sums[c] = sums[c].xor(L::multiply(factor, row[c]));
    }
}

// Adds the first products, where a word has as many bits as the level: as many as fill vectors, and returns how many.
fn add_first<R: StoredBytes, L: Level<R>>(sums: &mut [R], row: &[R], factor: R) -> usize
    requires { length sums.old ≡ length row.now }
    ensures few { result ≤ length sums.old }
    ensures long { length sums.new ≡ length sums.old }
    ensures added { AreAddedProducts R.Stored.number R.ZERO L.LEVEL (R.Stored.number factor) 0 result row.now sums.old sums.new }
{
    let words = R::in_sixteen();
    if row.len() < LEAST_IN_PLANES {
        0
    } else if words == 16 && L::LEVEL == 3 {
        add_in_planes::<R, L, Multiples8, Planes8>(sums, row, factor)
    } else if words == 8 && L::LEVEL == 4 {
        add_in_planes::<R, L, Multiples16, Planes16>(sums, row, factor)
    } else if words == 4 && L::LEVEL == 5 {
        add_in_planes::<R, L, Multiples32, Planes32>(sums, row, factor)
    } else if words == 2 && L::LEVEL == 6 {
        add_in_planes::<R, L, Multiples64, Planes64>(sums, row, factor)
    } else if words == 1 && L::LEVEL == 7 {
        add_in_planes::<R, L, Multiples128, Planes128>(sums, row, factor)
    } else {
        0
    }
}

// Adds the first products, as many as fill vectors, and returns how many.
fn add_in_planes<R: StoredBytes, L: Level<R>, M: Copy, P: WordPlanes<R, R, M> + PlaneScalars<M>>(
    sums: &mut [R],
    row: &[R],
    factor: R,
) -> usize
    requires size { R.WordBytes.size ≡ P.Planes.depth }
    requires level { level_of P.Planes.depth ≡ L.LEVEL }
    requires same { length sums.old ≡ length row.now }
    ensures few { result ≤ length sums.old }
    ensures long { length sums.new ≡ length sums.old }
    ensures added { AreAddedProducts R.Stored.number R.ZERO L.LEVEL (R.Stored.number factor) 0 result row.now sums.old sums.new }
{
    let scalar = L::truncate(factor).to_u128();
    let multiples = P::multiples(scalar, 1 << L::LEVEL);
    R::words_fit(sums);
    add_multiples::<R, R, M, P>(sums, row, &multiples)
}
