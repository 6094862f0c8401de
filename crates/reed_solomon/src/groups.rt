// Shards that are computed from a sample of others, up to four at once. Shards of one size stand one after the other in a slice.
ghost use Rattle.std.specs.Prelude.{◌≡◌, ◌≢◌, ◌+◌, ◌*◌, ◌^◌, ◌<◌, ◌≤◌, ◌↔◌, ℕ, length, min, slice_index, IsTrue};
ghost use Rattle.field_base.specs.Interpolation.{lagrange};
ghost use Rattle.reed_solomon.specs.ByteFields.{byte_times};
ghost use Rattle.reed_solomon.specs.declared.byte_field.ByteField.TheVariants.{Qr};
ghost use Rattle.reed_solomon.specs.Samples.{symbol_at};
ghost use Rattle.reed_solomon.specs.Tables.{AreApart, AreRows, AreWritten, HasRow, row_sum};

use crate::blocks::{Sources, write_group};
use crate::sample::Sample;
use crate::tables::{FewTables, RowTables, set_row};

// Where the bytes of `count` shards begin, by their places.
pub(crate) fn starts_of(places: &[u8; 256], count: usize, size: usize) -> [usize; 256]
    requires listed { count ≤ 256 }
    requires fit { (i : ℕ) → i < count → slice_index places.now i * size < 2 ^ 64 }
    ensures long { length result ≡ 256 }
    ensures starts { (i : ℕ) → i < count → slice_index result i ≡ slice_index places.now i * size }
{
    let mut starts = [0; 256];
    for i in 0..count {
        starts[i] = places[i] as usize * size;
    }
    starts
}

// Where the bytes of `count` shards begin, from shard `first` on.
pub(crate) fn starts_from(first: usize, count: usize, size: usize) -> [usize; 256]
    requires listed { first + count ≤ 256 }
    requires fit { (i : ℕ) → i < count → (first + i) * size < 2 ^ 64 }
    ensures long { length result ≡ 256 }
    ensures starts { (i : ℕ) → i < count → slice_index result i ≡ (first + i) * size }
{
    let mut starts = [0; 256];
    for i in 0..count {
        starts[i] = (first + i) * size;
    }
    starts
}

// Some columns of shards.
#[derive(Clone, Copy)]
pub(crate) struct Columns {
    pub(crate) first: usize,
    pub(crate) width: usize,
}

// Where column `column` of up to four shards begins, from shard `first` on.
pub(crate) fn places_in(first: usize, count: usize, size: usize, column: usize) -> [usize; 4]
    requires rows { count ≤ 4 }
    requires listed { first + count ≤ 256 }
    requires fit { (i : ℕ) → i < count → (first + i) * size + column < 2 ^ 64 }
    ensures long { length result ≡ 4 }
    ensures starts { (i : ℕ) → i < count → slice_index result i ≡ (first + i) * size + column }
{
    let mut starts = [0; 4];
    for i in 0..count {
        starts[i] = (first + i) * size + column;
    }
    starts
}

// How many of so many rows are written at once.
pub(crate) fn group_size(rows: usize) -> usize
    ensures { result ≡ min rows 4 }
{
    if rows < 4 { rows } else { 4 }
}

// Sets the tables of up to four rows: those of the shards at these points.
pub(crate) fn set_rows(entries: &mut [u8], sample: &Sample, points: &[u8])
    requires rows { length points.now ≤ 4 }
    requires room { 128 * sample.now.count ≤ length entries.old }
    requires apart { (j row : ℕ) → j < sample.now.count → row < length points.now
        → slice_index sample.now.places j ≢ slice_index points.now row }
    ensures set { (row : ℕ) → row < length points.now → HasRow
        (λ j. lagrange 8 (byte_times Qr) (slice_index sample.now.places) sample.now.count j (slice_index points.now row))
        entries.new row sample.now.count }
    ensures long { length entries.new ≡ length entries.old }
{
    for row in 0..points.len() {
        let factors = sample.factors(points[row]);
        set_row(entries, row, &factors, sample.count);
    }
}

// Puts the columns from `column` on of up to four rows, 2,048 bytes apart in a strip, into the shards at the targets.
fn put_strip(
    shards: &mut [u8],
    size: usize,
    targets: &[u8],
    column: usize,
    width: usize,
    strip: &[u8; 8192],
)
    requires rows { length targets.now ≤ 4 }
    requires narrow { width ≤ 2048 }
    requires within { column + width ≤ size }
    requires room { (row : ℕ) → row < length targets.now → slice_index targets.now row * size + size ≤ length shards.old }
    requires distinct { (row other : ℕ) → other < row → row < length targets.now
        → slice_index targets.now row ≢ slice_index targets.now other }
    ensures { AreWritten (λ row c. slice_index strip.now (2048 * row + c)) (λ row. slice_index targets.now row * size + column)
        (length targets.now) width shards.old shards.new }
{
    for row in 0..targets.len() {
        let begin = targets[row] as usize * size + column;
        let from = 2048 * row;
        shards[begin..begin + width].copy_from_slice(&strip[from..from + width]);
    }
}

// Writes up to four shards among those that they are computed from, which begin at `starts`: a strip of columns is written apart
// from them, and then put where it belongs.
pub(crate) fn restore_group(
    shards: &mut [u8],
    size: usize,
    starts: &[usize],
    entries: &[u8],
    targets: &[u8],
)
    requires some { 0 < length starts.now }
    requires few { length starts.now ≤ 256 }
    requires tables { 128 * length starts.now ≤ length entries.now }
    requires fits { size ≤ length shards.old }
    requires rows { length targets.now ≤ 4 }
    requires inside { (j : ℕ) → j < length starts.now → slice_index starts.now j + size ≤ length shards.old }
    requires room { (row : ℕ) → row < length targets.now → slice_index targets.now row * size + size ≤ length shards.old }
    requires distinct { (row other : ℕ) → other < row → row < length targets.now
        → slice_index targets.now row ≢ slice_index targets.now other }
    requires read { (j row : ℕ) → j < length starts.now → row < length targets.now
        → AreApart size (slice_index starts.now j) (slice_index targets.now row * size) }
    ensures { AreWritten (row_sum entries.now shards.old starts.now) (λ row. slice_index targets.now row * size)
        (length targets.now) size shards.old shards.new }
{
    let rows = starts_from(0, 4, 2048);
    let mut strip = [0; 8192];
    let mut column = 0;
    while column < size {
        let width = strip_width(size - column);
        let sources = Sources {
            shards: &shards[column..],
            size: width,
            starts,
            entries,
        };
        write_group(&sources, &mut strip, &rows[..targets.len()]);
        put_strip(shards, size, targets, column, width, &strip);
        column += width;
    }
}

// Whether up to four rows, which begin `size` bytes apart from `begin` on, are what the tables give of the shards that the sources name: each
// strip of columns is written apart from the shards, and compared.
pub(crate) fn matches_group(sources: &Sources<'_>, size: usize, begin: usize, count: usize) -> bool
    requires some_shards { 0 < length sources.now.starts.now }
    requires few { length sources.now.starts.now ≤ 256 }
    requires tables { 128 * length sources.now.starts.now ≤ length sources.now.entries.now }
    requires some { 0 < count }
    requires rows { count ≤ 4 }
    requires inside { (j : ℕ) → j < length sources.now.starts.now
        → slice_index sources.now.starts.now j + sources.now.size ≤ length sources.now.shards.now }
    requires room { (row : ℕ) → row < count → begin + row * size + sources.now.size ≤ length sources.now.shards.now }
    ensures { IsTrue result ↔ AreRows count size begin sources.now.size
        (row_sum sources.now.entries.now sources.now.shards.now sources.now.starts.now) sources.now.shards.now }
{
    let Sources {
        shards,
        size: columns,
        starts,
        entries,
    } = *sources;
    let rows = starts_from(0, 4, 2048);
    let mut strip = [0; 8192];
    let mut column = 0;
    while column < columns {
        let width = strip_width(columns - column);
        let part = Sources {
            shards: &shards[column..],
            size: width,
            starts,
            entries,
        };
        write_group(&part, &mut strip, &rows[..count]);
        if !has_strip(shards, size, begin + column, width, &strip, count) {
            return false;
        }
        column += width;
    }
    true
}

// Whether rows of `width` bytes, which begin `size` bytes apart from `begin` on, are up to four rows of a strip, 2,048 bytes apart.
fn has_strip(
    shards: &[u8],
    size: usize,
    begin: usize,
    width: usize,
    strip: &[u8; 8192],
    count: usize,
) -> bool
    requires rows { count ≤ 4 }
    requires narrow { width ≤ 2048 }
    requires room { (row : ℕ) → row < count → begin + row * size + width ≤ length shards.now }
    ensures { IsTrue result ↔ AreRows count size begin width (λ row column. slice_index strip.now (2048 * row + column)) shards.now }
{
    for row in 0..count {
        let first = begin + row * size;
        let from = 2048 * row;
        if shards[first..first + width] != strip[from..from + width] {
            return false;
        }
    }
    true
}

// How many of so many columns a strip has.
fn strip_width(columns: usize) -> usize
    ensures { result ≡ min columns 2048 }
{
    if columns < 2048 { columns } else { 2048 }
}

// Writes the shards at the first `count` places, none of which is of the sample. Tables for few shards are made in less memory, which takes
// less time to clear.
pub(crate) fn restore_shards(
    shards: &mut [u8],
    size: usize,
    sample: &Sample,
    targets: &[u8; 256],
    count: usize,
)
    requires some { 0 < sample.now.count }
    requires few { count ≤ 256 }
    requires inside { (j : ℕ) → j < sample.now.count → slice_index sample.now.places j * size + size ≤ length shards.old }
    requires room { (t : ℕ) → t < count → slice_index targets.now t * size + size ≤ length shards.old }
    requires apart { (j t : ℕ) → j < sample.now.count → t < count → slice_index sample.now.places j ≢ slice_index targets.now t }
    requires distinct { (s t : ℕ) → s < t → t < count → slice_index targets.now t ≢ slice_index targets.now s }
    ensures { AreWritten
        (λ t column. symbol_at sample.now.count size (slice_index sample.now.places) shards.old column (slice_index targets.now t))
        (λ t. slice_index targets.now t * size) count size shards.old shards.new }
{
    if sample.count <= 32 {
        let mut tables = FewTables::empty();
        restore_by_tables(shards, size, sample, &mut tables.entries, targets, count);
    } else {
        let mut tables = RowTables::empty();
        restore_by_tables(shards, size, sample, &mut tables.entries, targets, count);
    }
}

// Writes them, in memory for their tables.
fn restore_by_tables(
    shards: &mut [u8],
    size: usize,
    sample: &Sample,
    entries: &mut [u8],
    targets: &[u8; 256],
    count: usize,
)
    requires some { 0 < sample.now.count }
    requires few { count ≤ 256 }
    requires tables { 128 * sample.now.count ≤ length entries.old }
    requires inside { (j : ℕ) → j < sample.now.count → slice_index sample.now.places j * size + size ≤ length shards.old }
    requires room { (t : ℕ) → t < count → slice_index targets.now t * size + size ≤ length shards.old }
    requires apart { (j t : ℕ) → j < sample.now.count → t < count → slice_index sample.now.places j ≢ slice_index targets.now t }
    requires distinct { (s t : ℕ) → s < t → t < count → slice_index targets.now t ≢ slice_index targets.now s }
    ensures { AreWritten
        (λ t column. symbol_at sample.now.count size (slice_index sample.now.places) shards.old column (slice_index targets.now t))
        (λ t. slice_index targets.now t * size) count size shards.old shards.new }
{
    let starts = starts_of(&sample.places, sample.count, size);
    let mut done = 0;
    while done < count {
        let next = done + group_size(count - done);
        set_rows(entries, sample, &targets[done..next]);
        bytes_fit(shards);
        restore_group(
            shards,
            size,
            &starts[..sample.count],
            entries,
            &targets[done..next],
        );
        done = next;
    }
}

// A byte is below 256: it computes nothing.
pub(crate) fn bytes_fit(bytes: &[u8])
    ensures { (i : ℕ) → slice_index bytes.now i < 256 }
{}
