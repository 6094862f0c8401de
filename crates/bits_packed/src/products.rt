// Products of matrices over GF(2), by the method of the four Russians.
ghost use Rattle.std.specs.Prelude.{◌≡◌, ◌+◌, ◌*◌, ◌<◌, ◌≤◌, ℕ, if◌then◌else◌, length, nat_lt, slice_index};
ghost use Rattle.field_base.specs.Tower.{tower_mul};
ghost use Rattle.field_slices.specs.Matrices.{IsMatrixProduct};
ghost use Rattle.bits_packed.specs.BitMatrices.{IsStrip, IsStripAdded};
ghost use Rattle.bits_packed.specs.BitMatrices.{bit_entry, partial_word, sum_of_digits, word_of, words_for};

use crate::rows::clear;
use crate::tables::{Strip, add_entries, first_word, strip_width, write_tables};

/// Writes the product of two matrices to `target`: entry (i, j) is the sum over k of entry (i, k) of `left` times entry (k, j) of `right`.
/// `left` has `rows` rows of `inner` bits, `right` has `inner` rows of `columns` bits, and `target` has `rows` rows of `columns` bits.
/// Bits of `left` behind its columns are not read; those of `target` are the same sums of bits of `right` behind its columns, so 0 where
/// these are 0. It takes no memory but 16 KiB of the stack.
pub fn multiply_into(
    target: &mut [u64],
    left: &[u64],
    right: &[u64],
    rows: usize,
    inner: usize,
    columns: usize,
)
    requires left { length left.now ≡ rows * words_for inner }
    requires right { length right.now ≡ inner * words_for columns }
    requires shape { length target.old ≡ rows * words_for columns }
    ensures shape { length target.new ≡ length target.old }
    ensures product { IsMatrixProduct (tower_mul 0) rows inner (64 * words_for columns) (bit_entry (words_for inner) left.now)
        (bit_entry (words_for columns) right.now) (bit_entry (words_for columns) target.new) }
{
    // Without rows there may be more columns than memory has places.
    if rows == 0 {
        return;
    }
    let words = columns.div_ceil(64);
    multiply_words(target, left, right, rows, inner, words);
}

// The same where `right` and `target` have `words` words a row, with all bits of these.
fn multiply_words(
    target: &mut [u64],
    left: &[u64],
    right: &[u64],
    rows: usize,
    inner: usize,
    words: usize,
)
    requires left { length left.now ≡ rows * words_for inner }
    requires right { length right.now ≡ inner * words }
    requires shape { length target.old ≡ rows * words }
    ensures shape { length target.new ≡ length target.old }
    ensures product { IsMatrixProduct (tower_mul 0) rows inner (64 * words) (bit_entry (words_for inner) left.now)
        (bit_entry words right.now) (bit_entry words target.new) }
{
    let mut tables = [0; 2048];
    let len = target.len();
    clear(target, 0, len);
    let strips = words.div_ceil(8);
    for index in 0..strips {
        let start = 8 * index;
        let width = strip_width(words, start);
        let strip = Strip {
            words,
            start,
            width,
        };
        multiply_strip(target, left, right, &mut tables, strip, rows, inner);
    }
}

// Adds the product to a strip: 64 rows of the right matrix after the other.
pub(crate) fn multiply_strip(
    target: &mut [u64],
    left: &[u64],
    right: &[u64],
    tables: &mut [u64],
    strip: Strip,
    rows: usize,
    inner: usize,
)
    requires left { length left.now ≡ rows * words_for inner }
    requires right { length right.now ≡ inner * strip.words }
    requires shape { length target.old ≡ rows * strip.words }
    requires tables { length tables.old ≡ 2048 }
    requires strip { IsStrip strip.words strip.start strip.width }
    ensures sums { IsStripAdded strip.words strip.start strip.width rows
        (λ i w. partial_word inner (words_for inner) strip.words left.now right.now (64 * words_for inner) i (strip.start + w))
        target.old target.new }
    ensures tables { length tables.new ≡ 2048 }
{
    let passes = inner.div_ceil(64);
    for pass in 0..passes {
        let places = rows_from(64 * pass, inner);
        write_tables(tables, right, inner, strip, &places);
        add_pass(target, left, tables, strip, rows, inner, pass);
    }
}

// The 64 rows from `row` on; behind the last one each is `inner`.
fn rows_from(row: usize, inner: usize) -> [usize; 64]
    requires { row < inner }
    ensures { (k : ℕ) → k < 64 → slice_index result k ≡ if nat_lt (row + k) inner then row + k else inner }
{
    let mut places = [inner; 64];
    for offset in 0..64 {
        places[offset] = row_from(row, inner, offset);
    }
    places
}

// Row `row + offset`, or `inner` where there is none.
fn row_from(row: usize, inner: usize, offset: usize) -> usize
    requires { row < inner }
    ensures { result ≡ if nat_lt (row + offset) inner then row + offset else inner }
{
    let left = inner - row;
    if offset < left { row + offset } else { inner }
}

// The word of a row of the left matrix that has its bits from 64 * pass on.
fn left_word(left: &[u64], rows: usize, inner: usize, row: usize, pass: usize) -> u64
    requires left { length left.now ≡ rows * words_for inner }
    requires row { row < rows }
    requires pass { pass < words_for inner }
    ensures { result ≡ word_of (words_for inner) left.now row pass }
{
    let words = inner.div_ceil(64);
    let strip = Strip {
        words,
        start: pass,
        width: 1,
    };
    let place = first_word(left.len(), rows, strip, row);
    left[place]
}

// Adds to each row of a strip one entry of each table: those at the digits to base 16 of word `pass` of that row of the left matrix.
fn add_pass(
    target: &mut [u64],
    left: &[u64],
    tables: &[u64],
    strip: Strip,
    rows: usize,
    inner: usize,
    pass: usize,
)
    requires left { length left.now ≡ rows * words_for inner }
    requires shape { length target.old ≡ rows * strip.words }
    requires tables { length tables.now ≡ 2048 }
    requires strip { IsStrip strip.words strip.start strip.width }
    requires pass { pass < words_for inner }
    ensures { IsStripAdded strip.words strip.start strip.width rows
        (λ i w. sum_of_digits tables.now (word_of (words_for inner) left.now i pass) 16 w) target.old target.new }
{
    for row in 0..rows {
        let word = left_word(left, rows, inner, row, pass);
        add_entries(target, tables, strip, rows, row, word);
    }
}
