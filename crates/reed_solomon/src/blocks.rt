// Rows of shards, 32 columns at a time. A shard is known by the place where its bytes begin.
ghost use Rattle.std.specs.Prelude.{◌≡◌, ◌+◌, ◌-◌, ◌*◌, ◌<◌, ◌≤◌, ℕ, true, false, [], length, min, slice_index, slice_index_or};
ghost use Rattle.reed_solomon.specs.Tables.{AreApart, AreWritten, FitRows, row_sum, row_sum_of};

use crate::groups::bytes_fit;
use crate::lanes::nibble_sums;
use std::simd::prelude::*;

// The tables of up to two shards, and where these begin. As a local of a loop it stays in registers, whatever the loop writes.
#[derive(Clone, Copy)]
pub(crate) struct Held {
    entries: [u8; 256],
    starts: [usize; 2],
}

// Those of the shards from shard `from` on, without what stands behind the N rows of the last.
#[inline(always)]
fn held_shards<const N: usize>(entries: &[u8], starts: &[usize], from: usize, until: usize) -> Held
    requires few { length starts.now ≤ 256 }
    requires rows { N ≤ 4 }
    requires range { from < until }
    requires two { until ≤ from + 2 }
    requires listed { until ≤ length starts.now }
    requires tables { 128 * length starts.now + 32 * N ≤ length entries.now + 128 }
    ensures entries { (i : ℕ) → i + 128 < 128 * (until - from) + 32 * N
        → slice_index result.entries i ≡ slice_index entries.now (128 * from + i) }
    ensures starts { (i : ℕ) → i < until - from → slice_index result.starts i ≡ slice_index starts.now (from + i) }
{
    Held {
        entries: held_entries(entries, 128 * from, 128 * (until - from - 1) + 32 * N),
        starts: held_places::<2>(starts, from, until - from),
    }
}

// Some entries of tables, from one on.
#[inline(always)]
fn held_entries(entries: &[u8], first: usize, count: usize) -> [u8; 256]
    requires few { count ≤ 256 }
    requires inside { first + count ≤ length entries.now }
    ensures long { length result ≡ 256 }
    ensures same { (i : ℕ) → i < count → slice_index result i ≡ slice_index entries.now (first + i) }
{
    let mut held = [0; 256];
    for i in 0..count {
        held[i] = entries[first + i];
    }
    held
}

// Some places of a list, from one on.
#[inline(always)]
fn held_places<const N: usize>(places: &[usize], first: usize, count: usize) -> [usize; N]
    requires few { count ≤ N }
    requires small { N ≤ 4 }
    requires inside { first + count ≤ length places.now }
    ensures long { length result ≡ N }
    ensures same { (i : ℕ) → i < count → slice_index result i ≡ slice_index places.now (first + i) }
{
    let mut held = [0; N];
    for i in 0..count {
        held[i] = places[first + i];
    }
    held
}

// What the tables of N rows give in the 32 columns from `column` on of the shards before `until`, where `sums` has what those before
// `from` give. The tables and the places of the shards between these are held.
#[inline(always)]
pub(crate) fn block_sums<const N: usize>(
    shards: &[u8],
    starts: &[usize],
    entries: &[u8],
    held: &Held,
    from: usize,
    until: usize,
    column: usize,
    mut sums: [u8x32; N],
) -> [u8x32; N]
    requires range { from ≤ until }
    requires two { until ≤ from + 2 }
    requires held_entries { (i : ℕ) → i + 128 < 128 * (until - from) + 32 * N
        → slice_index held.now.entries i ≡ slice_index entries.now (128 * from + i) }
    requires held_starts { (i : ℕ) → i < until - from → slice_index held.now.starts i ≡ slice_index starts.now (from + i) }
    requires rows { N ≤ 4 }
    requires inside { (j : ℕ) → j < until → slice_index starts.now j + column + 32 ≤ length shards.now }
    requires count { length sums ≡ N }
    requires lanes { (row : ℕ) → row < N → length (slice_index_or sums row []) ≡ 32 }
    requires begun { (row lane : ℕ) → row < N → lane < 32 → slice_index (slice_index_or sums row []) lane
        ≡ row_sum_of from entries.now shards.now starts.now row (column + lane) }
    ensures long { (row : ℕ) → row < N → length (slice_index_or result row []) ≡ 32 }
    ensures sums { (row lane : ℕ) → row < N → lane < 32 → slice_index (slice_index_or result row []) lane
        ≡ row_sum_of until entries.now shards.now starts.now row (column + lane) }
{
    bytes_fit(shards);
    for j in from..until {
        let bytes = u8x32::from_slice(&shards[held.starts[j - from] + column..]);
        for row in 0..N {
            sums[row] ^= nibble_sums(&held.entries, 128 * (j - from) + 32 * row, bytes);
        }
    }
    sums
}

// 32 columns of zeros for each of N rows.
#[inline(always)]
fn zero_block<const N: usize>() -> [u8x32; N]
    ensures count { length result ≡ N }
    ensures long { (row : ℕ) → row < N → length (slice_index_or result row []) ≡ 32 }
    ensures zero { (row lane : ℕ) → row < N → lane < 32 → slice_index (slice_index_or result row []) lane ≡ 0 }
{
    [u8x32::splat(0); N]
}

// The 32 columns from `column` on of N rows, or zeros in their place.
#[inline(always)]
fn block_so_far<const N: usize>(
    out: &[u8],
    rows: &[usize],
    column: usize,
    is_first: bool,
) -> [u8x32; N]
    requires named { length rows.now ≡ N }
    requires room { (row : ℕ) → row < N → slice_index rows.now row + column + 32 ≤ length out.now }
    ensures count { length result ≡ N }
    ensures long { (row : ℕ) → row < N → length (slice_index_or result row []) ≡ 32 }
    ensures zero { (row lane : ℕ) → is_first ≡ true → row < N → lane < 32 → slice_index (slice_index_or result row []) lane ≡ 0 }
    ensures held { (row lane : ℕ) → is_first ≡ false → row < N → lane < 32 → slice_index (slice_index_or result row []) lane
        ≡ slice_index out.now (slice_index rows.now row + (column + lane)) }
{
    let mut sums = zero_block::<N>();
    if is_first {
        return sums;
    }
    for row in 0..N {
        sums[row] = u8x32::from_slice(&out[rows[row] + column..]);
    }
    sums
}

// What the tables of one row give in one column of the shards before `until`, where `so_far` is what those before `from` give.
pub(crate) fn column_sum(
    shards: &[u8],
    starts: &[usize],
    entries: &[u8],
    from: usize,
    until: usize,
    row: usize,
    column: usize,
    so_far: u8,
) -> u8
    requires few { length starts.now ≤ 256 }
    requires range { from ≤ until }
    requires listed { until ≤ length starts.now }
    requires tables { 128 * length starts.now + 32 * row ≤ length entries.now + 96 }
    requires rows { row < 4 }
    requires inside { (j : ℕ) → j < length starts.now → slice_index starts.now j + column < length shards.now }
    requires begun { so_far ≡ row_sum_of from entries.now shards.now starts.now row column }
    ensures { result ≡ row_sum_of until entries.now shards.now starts.now row column }
{
    let mut sum = so_far;
    for j in from..until {
        let byte = shards[starts[j] + column] as usize;
        let start = 128 * j + 32 * row;
        sum ^= entries[start + byte % 16] ^ entries[start + 16 + byte / 16];
    }
    sum
}

// What the tables of N rows give in one column of the shards before `until`. The rows have what those before `from` give.
#[inline]
fn column_sums<const N: usize>(
    shards: &[u8],
    starts: &[usize],
    entries: &[u8],
    from: usize,
    until: usize,
    out: &[u8],
    rows: &[usize],
    column: usize,
) -> [u8; N]
    requires few { length starts.now ≤ 256 }
    requires range { from ≤ until }
    requires listed { until ≤ length starts.now }
    requires tables { 128 * length starts.now + 32 * N ≤ length entries.now + 128 }
    requires rows { N ≤ 4 }
    requires named { length rows.now ≡ N }
    requires inside { (j : ℕ) → j < length starts.now → slice_index starts.now j + column < length shards.now }
    requires room { (row : ℕ) → row < N → slice_index rows.now row + column < length out.now }
    requires begun { (row : ℕ) → row < N → 0 < from
        → slice_index out.now (slice_index rows.now row + column) ≡ row_sum_of from entries.now shards.now starts.now row column }
    ensures { (row : ℕ) → row < N → slice_index result row ≡ row_sum_of until entries.now shards.now starts.now row column }
{
    let mut sums = [0; N];
    for row in 0..N {
        let so_far = if from == 0 {
            0
        } else {
            out[rows[row] + column]
        };
        sums[row] = column_sum(shards, starts, entries, from, until, row, column, so_far);
    }
    sums
}

// Stores 32 columns of N rows.
#[inline(always)]
fn store_block<const N: usize>(out: &mut [u8], rows: &[usize], column: usize, sums: &[u8x32; N])
    requires named { length rows.now ≡ N }
    requires lanes { (row : ℕ) → row < N → length (slice_index_or sums.now row []) ≡ 32 }
    requires room { (row : ℕ) → row < N → slice_index rows.now row + column + 32 ≤ length out.old }
    requires apart { (row other : ℕ) → other < row → row < N → AreApart 32 (slice_index rows.now row) (slice_index rows.now other) }
    ensures { AreWritten (λ row lane. slice_index (slice_index_or sums.now row []) lane)
        (λ row. slice_index rows.now row + column) N 32 out.old out.new }
{
    for row in 0..N {
        sums[row].copy_to_slice(&mut out[rows[row] + column..]);
    }
}

// Stores one column of N rows.
#[inline]
fn store_column<const N: usize>(out: &mut [u8], rows: &[usize], column: usize, sums: &[u8; N])
    requires named { length rows.now ≡ N }
    requires room { (row : ℕ) → row < N → slice_index rows.now row + column < length out.old }
    requires apart { (row other : ℕ) → other < row → row < N → AreApart 1 (slice_index rows.now row) (slice_index rows.now other) }
    ensures { AreWritten (λ row lane. slice_index sums.now row) (λ row. slice_index rows.now row + column) N 1 out.old out.new }
{
    for row in 0..N {
        out[rows[row] + column] = sums[row];
    }
}

// What rows are computed from: shards of `size` bytes, which begin at `starts`, and the entries of tables of four rows, 128 a shard.
#[derive(Clone, Copy)]
pub(crate) struct Sources<'a> {
    pub(crate) shards: &'a [u8],
    pub(crate) size: usize,
    pub(crate) starts: &'a [usize],
    pub(crate) entries: &'a [u8],
}

// Writes what the tables of N rows give of the shards before `until` into rows of another slice. These have what the shards before
// `from` give. In place it is compiled anew for the first shard, where no row is read, and for as many shards as are read at once.
#[inline(always)]
fn add_shards<const N: usize>(
    sources: &Sources<'_>,
    from: usize,
    until: usize,
    out: &mut [u8],
    rows: &[usize],
)
    requires fit { FitRows sources.now.size sources.now.entries.now sources.now.shards.now sources.now.starts.now (length out.old)
        rows.now N }
    requires range { from < until }
    requires two { until ≤ from + 2 }
    requires listed { until ≤ length sources.now.starts.now }
    requires begun { (row column : ℕ) → row < N → column < sources.now.size → 0 < from
        → slice_index out.old (slice_index rows.now row + column)
        ≡ row_sum_of from sources.now.entries.now sources.now.shards.now sources.now.starts.now row column }
    ensures { AreWritten (row_sum_of until sources.now.entries.now sources.now.shards.now sources.now.starts.now) (slice_index rows.now) N
        sources.now.size out.old out.new }
{
    let Sources {
        shards,
        size,
        starts,
        entries,
    } = *sources;
    let held = held_shards::<N>(entries, starts, from, until);
    let whole = size / 32 * 32;
    for block in 0..size / 32 {
        let column = 32 * block;
        let so_far = block_so_far::<N>(out, rows, column, from == 0);
        let sums = block_sums::<N>(shards, starts, entries, &held, from, until, column, so_far);
        store_block::<N>(out, rows, column, &sums);
    }
    for column in whole..size {
        let sums = column_sums::<N>(shards, starts, entries, from, until, out, rows, column);
        store_column::<N>(out, rows, column, &sums);
    }
}

// Writes N rows of another slice, of the first shard and then of two at a time.
#[inline(always)]
fn add_all<const N: usize>(sources: &Sources<'_>, out: &mut [u8], rows: &[usize])
    requires { FitRows sources.now.size sources.now.entries.now sources.now.shards.now sources.now.starts.now (length out.old)
        rows.now N }
    ensures { AreWritten (row_sum sources.now.entries.now sources.now.shards.now sources.now.starts.now) (slice_index rows.now) N
        sources.now.size out.old out.new }
{
    let count = sources.starts.len();
    add_shards::<N>(sources, 0, 1, out, rows);
    let mut done = 1;
    while count - done >= 2 {
        add_shards::<N>(sources, done, done + 2, out, rows);
        done += 2;
    }
    for j in done..count {
        add_shards::<N>(sources, j, j + 1, out, rows);
    }
}

// The same, where the places of the rows are held. Few shards are read at a time, from one end of a strip to the other: of more, the
// processor would not fetch the bytes ahead.
#[inline(never)]
fn write_rows<const N: usize>(sources: &Sources<'_>, out: &mut [u8], rows: &[usize])
    requires { FitRows sources.now.size sources.now.entries.now sources.now.shards.now sources.now.starts.now (length out.old)
        rows.now N }
    ensures { AreWritten (row_sum sources.now.entries.now sources.now.shards.now sources.now.starts.now) (slice_index rows.now) N
        sources.now.size out.old out.new }
{
    let places = held_places::<N>(rows, 0, N);
    add_all::<N>(sources, out, &places);
}

// Writes two rows of another slice, and then N more, up to two: sixteen registers of sixteen bytes do not hold the tables of two shards and the
// sums of more. The tables of the third row begin 64 entries behind those of the first.
fn write_pairs<const N: usize>(sources: &Sources<'_>, out: &mut [u8], rows: &[usize])
    requires { FitRows sources.now.size sources.now.entries.now sources.now.shards.now sources.now.starts.now (length out.old)
        rows.now (2 + N) }
    ensures { AreWritten (row_sum sources.now.entries.now sources.now.shards.now sources.now.starts.now) (slice_index rows.now) (2 + N)
        sources.now.size out.old out.new }
{
    write_rows::<2>(sources, out, &rows[..2]);
    let behind = Sources {
        shards: sources.shards,
        size: sources.size,
        starts: sources.starts,
        entries: &sources.entries[64..],
    };
    write_rows::<N>(&behind, out, &rows[2..]);
}

// Writes up to four rows of another slice, in strips of few columns, so that they stay in the nearest cache.
pub(crate) fn write_group(sources: &Sources<'_>, out: &mut [u8], rows: &[usize])
    requires { FitRows sources.now.size sources.now.entries.now sources.now.shards.now sources.now.starts.now (length out.old)
        rows.now (length rows.now) }
    ensures { AreWritten (row_sum sources.now.entries.now sources.now.shards.now sources.now.starts.now) (slice_index rows.now)
        (length rows.now) sources.now.size out.old out.new }
{
    match rows.len() {
        4 => write_pairs::<2>(sources, out, rows),
        3 => write_pairs::<1>(sources, out, rows),
        2 => write_rows::<2>(sources, out, rows),
        1 => write_rows::<1>(sources, out, rows),
        _ => {}
    }
}
