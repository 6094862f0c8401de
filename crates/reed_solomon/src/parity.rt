// Parity that is computed from the shards of data, which are the sample of the first places.
ghost use Rattle.std.specs.Prelude.{◌≡◌, ◌+◌, ◌*◌, ◌<◌, ◌≤◌, ◌↔◌, ◌++◌, ℕ, length, min, slice_index, IsTrue};
ghost use Rattle.reed_solomon.specs.Parity.{MatchesParity, parity_factor, parity_symbol};
ghost use Rattle.reed_solomon.specs.Shards.{AreCodewords, IsEncoded};
ghost use Rattle.reed_solomon.specs.Tables.{AreWritten, HasRow};

use crate::blocks::{Sources, write_group};
use crate::groups::{
    Columns, bytes_fit, group_size, matches_group, places_in, set_rows, starts_from,
};
use crate::sample::{Sample, places_from};
use crate::tables::{FewTables, RowTables};

// Sets the tables of up to four rows: those of the shards of parity from shard `first` of them on.
pub(crate) fn set_parity_rows(entries: &mut [u8], sample: &Sample, first: usize, count: usize)
    requires rows { count ≤ 4 }
    requires points { sample.now.count + first + count ≤ 256 }
    requires room { 128 * sample.now.count ≤ length entries.old }
    requires of_data { (j : ℕ) → j < sample.now.count → slice_index sample.now.places j ≡ j }
    ensures set { (row : ℕ) → row < count → HasRow (parity_factor sample.now.count (first + row)) entries.new row sample.now.count }
    ensures long { length entries.new ≡ length entries.old }
{
    let points = places_from(sample.count + first, count);
    set_rows(entries, sample, &points[..count]);
}

// Writes columns of up to four shards of parity by their tables, from shard `first` of them on. Other tables give other bytes.
fn write_parity_strip(
    shards: &[u8],
    size: usize,
    starts: &[usize],
    entries: &[u8],
    parity: &mut [u8],
    first: usize,
    count: usize,
    columns: Columns,
)
    requires some_shards { 0 < length starts.now }
    requires few { length starts.now ≤ 256 }
    requires rows { count ≤ 4 }
    requires listed { first + count ≤ 256 }
    requires within { columns.first + columns.width ≤ size }
    requires room { (row : ℕ) → row < count → (first + row) * size + size ≤ length parity.old }
    requires inside { (j : ℕ) → j < length starts.now → j * size + size ≤ length shards.now }
    requires some { columns.first ≤ length shards.now }
    requires begun { (j : ℕ) → j < length starts.now → slice_index starts.now j ≡ j * size }
    requires tables { 128 * length starts.now ≤ length entries.now }
    ensures long { length parity.new ≡ length parity.old }
    ensures written { ((row : ℕ) → row < count
        → HasRow (parity_factor (length starts.now) (first + row)) entries.now row (length starts.now))
        → AreWritten (λ row column. parity_symbol (length starts.now) size shards.now (first + row) (columns.first + column))
        (λ row. (first + row) * size + columns.first) count columns.width parity.old parity.new }
{
    bytes_fit(shards);
    let rows = places_in(first, count, size, columns.first);
    let sources = Sources {
        shards: &shards[columns.first..],
        size: columns.width,
        starts,
        entries,
    };
    write_group(&sources, parity, &rows[..count]);
}

// Writes them strip by strip, so that those of a strip stay in the nearest cache while one shard of data after the other is read.
pub(crate) fn write_parity_group(
    shards: &[u8],
    size: usize,
    starts: &[usize],
    entries: &[u8],
    parity: &mut [u8],
    first: usize,
    count: usize,
    columns: Columns,
)
    requires some_shards { 0 < length starts.now }
    requires few { length starts.now ≤ 256 }
    requires rows { count ≤ 4 }
    requires listed { first + count ≤ 256 }
    requires within { columns.first + columns.width ≤ size }
    requires room { (row : ℕ) → row < count → (first + row) * size + size ≤ length parity.old }
    requires inside { (j : ℕ) → j < length starts.now → j * size + size ≤ length shards.now }
    requires some { columns.first ≤ length shards.now }
    requires begun { (j : ℕ) → j < length starts.now → slice_index starts.now j ≡ j * size }
    requires tables { 128 * length starts.now ≤ length entries.now }
    ensures long { length parity.new ≡ length parity.old }
    ensures written { ((row : ℕ) → row < count
        → HasRow (parity_factor (length starts.now) (first + row)) entries.now row (length starts.now))
        → AreWritten (λ row column. parity_symbol (length starts.now) size shards.now (first + row) (columns.first + column))
        (λ row. (first + row) * size + columns.first) count columns.width parity.old parity.new }
{
    let mut done = 0;
    while done < columns.width {
        let width = near_width(columns.width - done);
        let strip = Columns {
            first: columns.first + done,
            width,
        };
        write_parity_strip(shards, size, starts, entries, parity, first, count, strip);
        done += width;
    }
}

// How many of so many columns of four rows stay in the nearest cache. Fewer are slower where there are many shards, each of which begins anew in
// another page.
fn near_width(columns: usize) -> usize
    ensures { result ≡ min columns 4096 }
{
    if columns < 4096 { columns } else { 4096 }
}

// Writes m shards of parity behind one another, from k shards of data. Tables for few shards are made in less memory, which takes less
// time to clear.
pub(crate) fn write_parity(shards: &[u8], size: usize, k: usize, parity: &mut [u8], m: usize)
    requires points { k + m ≤ 256 }
    requires some { 0 < k }
    requires whole { length shards.now ≡ k * size }
    requires room { length parity.old ≡ m * size }
    ensures long { length parity.new ≡ length parity.old }
    ensures encoded { IsEncoded k (k + m) size (shards.now ++ parity.old) (shards.now ++ parity.new) }
{
    if k <= 32 {
        let mut tables = FewTables::empty();
        write_by_tables(shards, size, k, &mut tables.entries, parity, m);
    } else {
        let mut tables = RowTables::empty();
        write_by_tables(shards, size, k, &mut tables.entries, parity, m);
    }
}

// Writes them, in memory for their tables. The data are read once for each four shards of parity: where there are more, strip by strip, so
// that a strip stays in the cache. The tables are made anew for each strip.
fn write_by_tables(
    shards: &[u8],
    size: usize,
    k: usize,
    entries: &mut [u8],
    parity: &mut [u8],
    m: usize,
)
    requires points { k + m ≤ 256 }
    requires some { 0 < k }
    requires tables { 128 * k ≤ length entries.old }
    requires whole { length shards.now ≡ k * size }
    requires room { length parity.old ≡ m * size }
    ensures long { length parity.new ≡ length parity.old }
    ensures encoded { IsEncoded k (k + m) size (shards.now ++ parity.old) (shards.now ++ parity.new) }
{
    bytes_fit(shards);
    let sample = Sample::of_first(k);
    let starts = starts_from(0, k, size);
    let mut first = 0;
    while first < size {
        let width = strip_of(size - first, m, 16384);
        let columns = Columns { first, width };
        write_columns(
            shards,
            size,
            &starts[..k],
            &sample,
            entries,
            parity,
            m,
            columns,
        );
        first += width;
    }
}

// How many of so many columns are written before the next: all where there are at most four rows, and else no more than `most`.
pub(crate) fn strip_of(columns: usize, rows: usize, most: usize) -> usize
    requires { 0 < most }
    ensures few { result ≤ columns }
    ensures some { 0 < columns → 0 < result }
{
    if rows <= 4 || columns < most {
        columns
    } else {
        most
    }
}

// Writes columns of m shards of parity behind one another, from the shards of data, which are the sample. It sets the tables for four rows
// after four rows.
fn write_columns(
    shards: &[u8],
    size: usize,
    starts: &[usize],
    sample: &Sample,
    entries: &mut [u8],
    parity: &mut [u8],
    m: usize,
    columns: Columns,
)
    requires points { sample.now.count + m ≤ 256 }
    requires of_data { (j : ℕ) → j < sample.now.count → slice_index sample.now.places j ≡ j }
    requires counted { length starts.now ≡ sample.now.count }
    requires begun { (j : ℕ) → j < sample.now.count → slice_index starts.now j ≡ j * size }
    requires some { 0 < sample.now.count }
    requires whole { length shards.now ≡ sample.now.count * size }
    requires room { length parity.old ≡ m * size }
    requires within { columns.first + columns.width ≤ size }
    requires tables { 128 * sample.now.count ≤ length entries.old }
    ensures long { length parity.new ≡ length parity.old }
    ensures entries { length entries.new ≡ length entries.old }
    ensures written { AreWritten (λ t column. parity_symbol sample.now.count size shards.now t (columns.first + column))
        (λ t. t * size + columns.first) m columns.width parity.old parity.new }
{
    let mut done = 0;
    while done < m {
        let count = group_size(m - done);
        set_parity_rows(entries, sample, done, count);
        write_parity_group(shards, size, starts, entries, parity, done, count, columns);
        done += count;
    }
}

// Whether columns of up to four shards of parity, from shard `first` of them on, are those of the shards of data before them, by their tables.
// By other tables nothing is said of the answer.
pub(crate) fn matches_parity_group(
    shards: &[u8],
    size: usize,
    starts: &[usize],
    entries: &[u8],
    first: usize,
    count: usize,
    columns: Columns,
) -> bool
    requires some_shards { 0 < length starts.now }
    requires few { length starts.now ≤ 256 }
    requires some { 0 < count }
    requires rows { count ≤ 4 }
    requires listed { first + count ≤ 256 }
    requires within { columns.first + columns.width ≤ size }
    requires room { (length starts.now + (first + count)) * size ≤ length shards.now }
    requires begun { (j : ℕ) → j < length starts.now → slice_index starts.now j ≡ j * size }
    requires tables { 128 * length starts.now ≤ length entries.now }
    ensures { ((row : ℕ) → row < count → HasRow (parity_factor (length starts.now) (first + row)) entries.now row (length starts.now))
        → IsTrue result
        ↔ MatchesParity (length starts.now) size shards.now first (first + count) columns.first (columns.first + columns.width) }
{
    bytes_fit(shards);
    let sources = Sources {
        shards: &shards[columns.first..],
        size: columns.width,
        starts,
        entries,
    };
    matches_group(&sources, size, (starts.len() + first) * size, count)
}

// Whether m shards of parity are those of the k shards of data before them. Tables for few shards are made in less memory, which takes less
// time to clear.
pub(crate) fn matches_parity(shards: &[u8], size: usize, k: usize, m: usize) -> bool
    requires points { k + m ≤ 256 }
    requires some { 0 < k }
    requires whole { length shards.now ≡ (k + m) * size }
    ensures { IsTrue result ↔ AreCodewords k (k + m) size shards.now }
{
    if k <= 32 {
        let mut tables = FewTables::empty();
        matches_by_tables(shards, size, k, &mut tables.entries, m)
    } else {
        let mut tables = RowTables::empty();
        matches_by_tables(shards, size, k, &mut tables.entries, m)
    }
}

// Whether they are, in memory for their tables: strip by strip, as they are written.
fn matches_by_tables(shards: &[u8], size: usize, k: usize, entries: &mut [u8], m: usize) -> bool
    requires points { k + m ≤ 256 }
    requires some { 0 < k }
    requires tables { 128 * k ≤ length entries.old }
    requires whole { length shards.now ≡ (k + m) * size }
    ensures { IsTrue result ↔ AreCodewords k (k + m) size shards.now }
{
    bytes_fit(shards);
    let sample = Sample::of_first(k);
    let starts = starts_from(0, k, size);
    let mut first = 0;
    while first < size {
        let width = strip_of(size - first, m, 16384);
        let columns = Columns { first, width };
        if !matches_columns(shards, size, &starts[..k], &sample, entries, m, columns) {
            return false;
        }
        first += width;
    }
    true
}

// Whether columns of m shards of parity are those of the shards of data, which are the sample. It sets the tables for four rows after four
// rows.
fn matches_columns(
    shards: &[u8],
    size: usize,
    starts: &[usize],
    sample: &Sample,
    entries: &mut [u8],
    m: usize,
    columns: Columns,
) -> bool
    requires points { length starts.now + m ≤ 256 }
    requires of_data { (j : ℕ) → j < sample.now.count → slice_index sample.now.places j ≡ j }
    requires counted { length starts.now ≡ sample.now.count }
    requires begun { (j : ℕ) → j < length starts.now → slice_index starts.now j ≡ j * size }
    requires some { 0 < length starts.now }
    requires whole { length shards.now ≡ (length starts.now + m) * size }
    requires within { columns.first + columns.width ≤ size }
    requires tables { 128 * length starts.now ≤ length entries.old }
    ensures entries { length entries.new ≡ length entries.old }
    ensures answer { IsTrue result ↔ MatchesParity (length starts.now) size shards.now 0 m columns.first (columns.first + columns.width) }
{
    let mut done = 0;
    while done < m {
        let count = group_size(m - done);
        set_parity_rows(entries, sample, done, count);
        if !matches_parity_group(shards, size, starts, entries, done, count, columns) {
            return false;
        }
        done += count;
    }
    true
}
