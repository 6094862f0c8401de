// Sums of rows that are still to be added, at the end of 64 columns of an elimination.
ghost use Rattle.std.specs.Prelude.{◌≡◌, ◌+◌, ◌*◌, ◌^◌, ◌<◌, ◌≤◌, ℕ, bit_and, length, slice_index};
ghost use Rattle.std.specs.Int.{bit_at};
ghost use Rattle.bits_packed.specs.BitMatrices.{ArePivotsSet, AreWordsAdded, IsStrip, IsStripAdded};
ghost use Rattle.bits_packed.specs.BitMatrices.{bit_entry, present_entry, entry_within, row_word, sum_at_bits, sum_of_digits, word_of};

use crate::rows::{Shape, add_bit, place};
use crate::tables::{Strip, add_entries, write_tables};

// Makes the matrix what it stands for, where column b of word `word` has its pivot in row `places[b]`, if there is such a row: adds to each
// row, behind the word, the rows that its bits in the columns with pivots say, and writes what these columns are.
pub(crate) fn add_sums(matrix: &mut [u64], shape: Shape, word: usize, places: &[usize; 64])
    requires shape { length matrix.old ≡ shape.rows * shape.words }
    requires word { word < shape.words }
    ensures shape { length matrix.new ≡ length matrix.old }
    ensures entries { (i j : ℕ) → i < shape.rows → j < 64 * shape.words → bit_entry shape.words matrix.new i j
        ≡ present_entry shape.rows (64 * word) (slice_index places.now) (bit_entry shape.words matrix.old) i j }
{
    let mask = pivot_mask(places, shape.rows);
    if mask != 0 {
        add_behind(matrix, shape, word, places);
        clear_bits(matrix, shape, word, mask);
        set_pivots(matrix, shape, word, places);
    }
}

// The word whose bit b is 1 where there is a row `places[b]`.
fn pivot_mask(places: &[usize; 64], rows: usize) -> u64
    ensures { (b : ℕ) → b < 64 → bit_at result b ≡ entry_within rows (λ k j. 1) (slice_index places.now b) 0 }
{
    let mut mask = 0;
    for bit in 0..64 {
        mask ^= pivot_bit(places[bit], rows, bit);
    }
    mask
}

// A bit of a word, if there is this row, and else 0.
fn pivot_bit(row: usize, rows: usize, bit: usize) -> u64
    requires { bit < 64 }
    ensures { result ≡ entry_within rows (λ k j. 1) row 0 * 2 ^ bit }
{
    if row < rows { 1 << bit } else { 0 }
}

// Adds to each row behind a word the rows at the places of the set bits of that word. The strips end where the rows do, so that where these
// have whole lines of a cache the strips do.
fn add_behind(matrix: &mut [u64], shape: Shape, word: usize, places: &[usize; 64])
    requires shape { length matrix.old ≡ shape.rows * shape.words }
    requires word { word < shape.words }
    ensures shape { length matrix.new ≡ length matrix.old }
    ensures sums { AreWordsAdded shape.words (word + 1) shape.words shape.rows
        (λ i v. sum_at_bits (λ b. row_word shape.rows shape.words matrix.old (slice_index places.now b) v) 64
        (word_of shape.words matrix.old i word)) matrix.old matrix.new }
{
    let Shape { rows, words } = shape;
    let mut tables = [0; 2048];
    let start = word + 1;
    let width = (words - start) % 8;
    let strip = Strip {
        words,
        start,
        width,
    };
    add_to_strip(matrix, &mut tables, strip, rows, word, places);
    let first = start + width;
    let strips = (words - first) / 8;
    for index in 0..strips {
        let strip = Strip {
            words,
            start: first + 8 * index,
            width: 8,
        };
        add_to_strip(matrix, &mut tables, strip, rows, word, places);
    }
}

// The same in a strip behind the word.
fn add_to_strip(
    matrix: &mut [u64],
    tables: &mut [u64],
    strip: Strip,
    rows: usize,
    word: usize,
    places: &[usize; 64],
)
    requires shape { length matrix.old ≡ rows * strip.words }
    requires tables { length tables.old ≡ 2048 }
    requires strip { IsStrip strip.words strip.start strip.width }
    requires word { word < strip.start }
    ensures tables { length tables.new ≡ 2048 }
    ensures sums { AreWordsAdded strip.words strip.start (strip.start + strip.width) rows
        (λ i v. sum_at_bits (λ b. row_word rows strip.words matrix.old (slice_index places.now b) v) 64
        (word_of strip.words matrix.old i word)) matrix.old matrix.new }
{
    let width = strip.width;
    if width != 0 {
        write_tables(tables, matrix, rows, strip, places);
        add_own(matrix, tables, strip, rows, word);
    }
}

// Adds to each row of a strip one entry of each table: those at the digits to base 16 of a word of the row that stands before the strip.
fn add_own(matrix: &mut [u64], tables: &[u64], strip: Strip, rows: usize, word: usize)
    requires shape { length matrix.old ≡ rows * strip.words }
    requires tables { length tables.now ≡ 2048 }
    requires strip { IsStrip strip.words strip.start strip.width }
    requires word { word < strip.start }
    ensures { IsStripAdded strip.words strip.start strip.width rows
        (λ i w. sum_of_digits tables.now (word_of strip.words matrix.old i word) 16 w) matrix.old matrix.new }
{
    let shape = Shape {
        rows,
        words: strip.words,
    };
    for row in 0..rows {
        let own = place(matrix.len(), shape, row, word);
        let digits = matrix[own];
        add_entries(matrix, tables, strip, rows, row, digits);
    }
}

// Makes the bits of a mask 0 in one word of each row.
fn clear_bits(matrix: &mut [u64], shape: Shape, word: usize, mask: u64)
    requires shape { length matrix.old ≡ shape.rows * shape.words }
    requires word { word < shape.words }
    ensures { IsStripAdded shape.words word 1 shape.rows (λ i w. bit_and (word_of shape.words matrix.old i word) mask)
        matrix.old matrix.new }
{
    for row in 0..shape.rows {
        let at = place(matrix.len(), shape, row, word);
        matrix[at] ^= matrix[at] & mask;
    }
}

// Sets bit b of a word in row `places[b]`, for each b < 64 where there is such a row, which is 0 there.
fn set_pivots(matrix: &mut [u64], shape: Shape, word: usize, places: &[usize; 64])
    requires shape { length matrix.old ≡ shape.rows * shape.words }
    requires word { word < shape.words }
    ensures { ArePivotsSet shape.rows shape.words (64 * word) 64 (slice_index places.now) matrix.old matrix.new }
{
    for bit in 0..64 {
        set_pivot(matrix, shape, word, bit, places[bit]);
    }
}

// Sets a bit of a word in a row, which is 0 there, if there is this row.
fn set_pivot(matrix: &mut [u64], shape: Shape, word: usize, bit: usize, row: usize)
    requires shape { length matrix.old ≡ shape.rows * shape.words }
    requires word { word < shape.words }
    requires bit { bit < 64 }
    ensures { ArePivotsSet shape.rows shape.words (64 * word + bit) 1 (λ b. row) matrix.old matrix.new }
{
    if row < shape.rows {
        add_bit(matrix, shape, row, word, bit, 1);
    }
}
