// The transpose of a matrix over GF(2), by blocks of 64 rows and 64 columns.
ghost use Rattle.std.specs.Prelude.{◌≡◌, ◌+◌, ◌-◌, ◌*◌, ◌<◌, ◌≤◌, ℕ, length, slice_index};
ghost use Rattle.std.specs.Int.{bit_at};
ghost use Rattle.bits_packed.specs.BitMatrices.{IsBlockWritten, bit_entry, entry_within, row_word, words_for};

use crate::PackedGf2x64;
use crate::rows::{Shape, place};

/// Writes the transpose of `source`, a matrix of `rows` rows of `columns` bits, to `target`, of `columns` rows of `rows` bits: its entry
/// (i, j) is entry (j, i) of `source`, and the bits behind its columns are 0. Bits of `source` behind its columns are not read. It takes no
/// memory.
pub fn transpose_into(target: &mut [u64], source: &[u64], rows: usize, columns: usize)
    requires source { length source.now ≡ rows * words_for columns }
    requires shape { length target.old ≡ columns * words_for rows }
    ensures shape { length target.new ≡ length target.old }
    ensures entries { (i j : ℕ) → i < columns → j < rows
        → bit_entry (words_for rows) target.new i j ≡ bit_entry (words_for columns) source.now j i }
    ensures behind { (i j : ℕ) → i < columns → rows ≤ j → j < 64 * words_for rows → bit_entry (words_for rows) target.new i j ≡ 0 }
{
    // Without columns there may be more rows than memory has places.
    if columns == 0 {
        return;
    }
    let from = Shape {
        rows,
        words: columns.div_ceil(64),
    };
    let to = Shape {
        rows: columns,
        words: rows.div_ceil(64),
    };
    transpose_words(target, source, to, from);
}

// The same of matrices of these shapes, each with as many words a row as the rows of the other need.
fn transpose_words(target: &mut [u64], source: &[u64], to: Shape, from: Shape)
    requires source { length source.now ≡ from.rows * from.words }
    requires shape { length target.old ≡ to.rows * to.words }
    requires rows { 64 * to.words < from.rows + 64 }
    requires columns { to.rows ≤ 64 * from.words }
    requires few { 64 * from.words < to.rows + 64 }
    ensures shape { length target.new ≡ length target.old }
    ensures entries { (i j : ℕ) → i < to.rows → j < 64 * to.words
        → bit_entry to.words target.new i j ≡ entry_within from.rows (bit_entry from.words source.now) j i }
{
    for word in 0..to.words {
        write_column(target, source, to, from, word);
    }
}

// Writes one word of each row of the transpose.
fn write_column(target: &mut [u64], source: &[u64], to: Shape, from: Shape, word: usize)
    requires source { length source.now ≡ from.rows * from.words }
    requires shape { length target.old ≡ to.rows * to.words }
    requires word { word < to.words }
    requires row { 64 * word < from.rows }
    requires few { 64 * from.words < to.rows + 64 }
    ensures { IsBlockWritten to.rows to.words 0 (64 * from.words) word
        (λ i b. entry_within from.rows (bit_entry from.words source.now) (64 * word + b) i) target.old target.new }
{
    for block in 0..from.words {
        let rows = block_of(source, from, 64 * word, block);
        let columns = transposed(&rows);
        put_block(target, to, 64 * block, word, &columns);
    }
}

// A word of each of the 64 rows from `first` on; where there is no row it is 0.
fn block_of(source: &[u64], shape: Shape, first: usize, word: usize) -> [u64; 64]
    requires source { length source.now ≡ shape.rows * shape.words }
    requires first { first < shape.rows }
    requires word { word < shape.words }
    ensures { (k : ℕ) → k < 64 → slice_index result k ≡ row_word shape.rows shape.words source.now (first + k) word }
{
    let mut block = [0; 64];
    for offset in 0..64 {
        block[offset] = word_from(source, shape, first, offset, word);
    }
    block
}

// A word of the row that stands `offset` rows behind a row; where there is none it is 0.
#[inline(always)]
fn word_from(source: &[u64], shape: Shape, first: usize, offset: usize, word: usize) -> u64
    requires source { length source.now ≡ shape.rows * shape.words }
    requires first { first < shape.rows }
    requires word { word < shape.words }
    ensures { result ≡ row_word shape.rows shape.words source.now (first + offset) word }
{
    let left = shape.rows - first;
    if offset < left {
        let at = place(source.len(), shape, first + offset, word);
        source[at]
    } else {
        0
    }
}

// The transpose of 64 words as the rows of a matrix.
fn transposed(words: &[u64; 64]) -> [u64; 64]
    ensures { (i j : ℕ) → i < 64 → j < 64 → bit_at (slice_index result i) j ≡ bit_at (slice_index words.now j) i }
{
    let mut rows = [PackedGf2x64::new(0); 64];
    for row in 0..64 {
        rows[row] = PackedGf2x64::new(words[row]);
    }
    PackedGf2x64::transpose(&mut rows);
    let mut out = [0; 64];
    for column in 0..64 {
        out[column] = rows[column].to_bits();
    }
    out
}

// Writes 64 words to one word of each of the rows from `first` on, as far as there are rows.
fn put_block(target: &mut [u64], shape: Shape, first: usize, word: usize, words: &[u64; 64])
    requires shape { length target.old ≡ shape.rows * shape.words }
    requires first { first < shape.rows }
    requires word { word < shape.words }
    ensures { IsBlockWritten shape.rows shape.words first 64 word (λ i b. bit_at (slice_index words.now (i - first)) b)
        target.old target.new }
{
    for offset in 0..64 {
        put_word(target, shape, first, offset, word, words[offset]);
    }
}

// Writes a word of the row that stands `offset` rows behind a row, if there is one.
#[inline(always)]
fn put_word(target: &mut [u64], shape: Shape, first: usize, offset: usize, word: usize, value: u64)
    requires shape { length target.old ≡ shape.rows * shape.words }
    requires first { first < shape.rows }
    requires word { word < shape.words }
    ensures { IsBlockWritten shape.rows shape.words (first + offset) 1 word (λ i b. bit_at value b) target.old target.new }
{
    let left = shape.rows - first;
    if offset < left {
        let at = place(target.len(), shape, first + offset, word);
        target[at] = value;
    }
}
