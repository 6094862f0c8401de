// Tables of sums of rows, for the method of the four Russians, and sums of their entries.
ghost use Rattle.std.specs.Prelude.{◌≡◌, ◌⊎◌, ◌+◌, ◌*◌, ◌<◌, ◌≤◌, ◌%◌, ℕ, bit_xor, length, slice_index};
ghost use Rattle.bits_packed.specs.BitMatrices.{HasEntries, HasTables, IsKeptOutside, IsRangeWritten, IsStrip, row_word, sum_of_digits};

use crate::rows::{add_words, clear, words_from};
use std::simd::prelude::*;

// Sums are added strip by strip, and in a strip those of 64 rows at a time: for each four of these 16 sums stand in a table, of 8 words
// each, so that any sum of the 64 rows takes 16 sums of 8 words. The tables take 16 KiB, which a processor keeps in its nearest cache.

// A strip of a matrix whose rows have `words` words: `width` words of each row, from word `start` on.
#[derive(Clone, Copy)]
pub(crate) struct Strip {
    pub(crate) words: usize,
    pub(crate) start: usize,
    pub(crate) width: usize,
}

// How many words a strip from a word on has: 8, or those that are left.
pub(crate) fn strip_width(words: usize, start: usize) -> usize
    requires { start < words }
    ensures last { (result ≡ 8) ⊎ (start + result ≡ words) }
    ensures strip { IsStrip words start result }
{
    let rest = words - start;
    if rest < 8 { rest } else { 8 }
}

// Makes the tables of 64 rows of a matrix of `inner` rows; a place behind the last row stands for zeros.
pub(crate) fn write_tables(
    tables: &mut [u64],
    matrix: &[u64],
    inner: usize,
    strip: Strip,
    places: &[usize; 64],
)
    requires matrix { length matrix.now ≡ inner * strip.words }
    requires tables { length tables.old ≡ 2048 }
    requires strip { IsStrip strip.words strip.start strip.width }
    ensures tables { length tables.new ≡ 2048 }
    ensures entries { HasTables strip.width 16 (λ k w. row_word inner strip.words matrix.now (slice_index places.now k) (strip.start + w))
        tables.new }
{
    for group in 0..16 {
        write_table(tables, matrix, inner, strip, places, group);
    }
}

// Makes the table of the four rows from place `4 * group` on. Entry 0 is 0, and with each row the entries double, since entry u + 2^c
// is entry u plus row c for u below 2^c.
fn write_table(
    tables: &mut [u64],
    matrix: &[u64],
    inner: usize,
    strip: Strip,
    places: &[usize; 64],
    group: usize,
)
    requires matrix { length matrix.now ≡ inner * strip.words }
    requires tables { length tables.old ≡ 2048 }
    requires strip { IsStrip strip.words strip.start strip.width }
    requires group { group < 16 }
    ensures tables { length tables.new ≡ 2048 }
    ensures entries { HasEntries strip.width 16
        (λ c w. row_word inner strip.words matrix.now (slice_index places.now (4 * group + c)) (strip.start + w)) (128 * group) tables.new }
    ensures others { IsKeptOutside (128 * group) 128 tables.old tables.new }
{
    let first = 128 * group;
    clear(tables, first, 8);
    let first_row = strip_of_row(matrix, inner, strip, places[4 * group]);
    double_entries(tables, first, 8, &first_row);
    let second_row = strip_of_row(matrix, inner, strip, places[4 * group + 1]);
    double_entries(tables, first, 16, &second_row);
    let third_row = strip_of_row(matrix, inner, strip, places[4 * group + 2]);
    double_entries(tables, first, 32, &third_row);
    let fourth_row = strip_of_row(matrix, inner, strip, places[4 * group + 3]);
    double_entries(tables, first, 64, &fourth_row);
}

// Writes `count` words behind as many, from place `first` on: these plus the words of a row, over and over.
fn double_entries(tables: &mut [u64], first: usize, count: usize, row: &[u64; 8])
    requires { first + count + count ≤ length tables.old }
    ensures { IsRangeWritten (first + count) count
        (λ p. bit_xor (slice_index tables.old (first + p)) (slice_index row.now (p % 8))) tables.old tables.new }
{
    for place in 0..count {
        tables[first + count + place] = tables[first + place] ^ row[place % 8];
    }
}

// The words in a strip of a row; where there is none they are 0.
fn strip_of_row(matrix: &[u64], inner: usize, strip: Strip, row: usize) -> [u64; 8]
    requires matrix { length matrix.now ≡ inner * strip.words }
    requires strip { IsStrip strip.words strip.start strip.width }
    ensures { (w : ℕ) → w < strip.width → slice_index result w ≡ row_word inner strip.words matrix.now row (strip.start + w) }
{
    if row < inner {
        let first = first_word(matrix.len(), inner, strip, row);
        words_from(matrix, first, strip.width)
    } else {
        [0; 8]
    }
}

// The place of the first word of a row in a strip of a matrix of `len` words.
pub(crate) fn first_word(len: usize, rows: usize, strip: Strip, row: usize) -> usize
    requires len { len ≡ rows * strip.words }
    requires strip { IsStrip strip.words strip.start strip.width }
    requires row { row < rows }
    ensures is { result ≡ row * strip.words + strip.start }
    ensures inside { result + strip.width ≤ len }
{
    row * strip.words + strip.start
}

// Adds to a row of a strip one entry of each table: those at the digits to base 16 of a word.
#[inline(always)]
pub(crate) fn add_entries(
    target: &mut [u64],
    tables: &[u64],
    strip: Strip,
    rows: usize,
    row: usize,
    word: u64,
)
    requires shape { length target.old ≡ rows * strip.words }
    requires tables { length tables.now ≡ 2048 }
    requires strip { IsStrip strip.words strip.start strip.width }
    requires row { row < rows }
    ensures { IsRangeWritten (row * strip.words + strip.start) strip.width
        (λ p. bit_xor (slice_index target.old (row * strip.words + strip.start + p)) (sum_of_digits tables.now word 16 p))
        target.old target.new }
{
    let sums = sum_of_entries(tables, word);
    let first = first_word(target.len(), rows, strip, row);
    add_strip(target, first, strip.width, &sums);
}

// The sum of one entry of each table: those at the digits to base 16 of a word.
#[inline(always)]
fn sum_of_entries(tables: &[u64], word: u64) -> [u64; 8]
    requires { length tables.now ≡ 2048 }
    ensures { (w : ℕ) → w < 8 → slice_index result w ≡ sum_of_digits tables.now word 16 w }
{
    let mut sum = u64x8::splat(0);
    for group in 0..16 {
        let digit = ((word >> (4 * group)) % 16) as usize;
        let start = 128 * group + 8 * digit;
        sum = sum ^ u64x8::from_slice(&tables[start..]);
    }
    sum.to_array()
}

// `add_words`, with the usual count as a literal: then no loop is left in the machine code.
#[inline(always)]
fn add_strip(target: &mut [u64], first: usize, count: usize, sums: &[u64; 8])
    requires few { count ≤ 8 }
    requires inside { first + count ≤ length target.old }
    ensures { IsRangeWritten first count
        (λ p. bit_xor (slice_index target.old (first + p)) (slice_index sums.now p)) target.old target.new }
{
    if count == 8 {
        add_words(target, first, 8, sums);
    } else {
        add_words(target, first, count, sums);
    }
}
