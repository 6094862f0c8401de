// Entries of packed matrices, and sums of rows, 64 places at once.
ghost use Rattle.std.specs.Prelude.{◌≡◌, ◌≢◌, ◌⊎◌, ◌+◌, ◌-◌, ◌*◌, ◌<◌, ◌≤◌, ℕ, bit_xor, length, slice_index};
ghost use Rattle.field_slices.specs.Matrices.{HasMatrixEntry};
ghost use Rattle.bits_packed.specs.BitMatrices.{HasBitEntry, IsBitRowWritten, IsBitWritten, IsRangeWritten, bit_entry, kept_before};

// How many rows a matrix has, and how many words a row.
#[derive(Clone, Copy)]
pub(crate) struct Shape {
    pub(crate) rows: usize,
    pub(crate) words: usize,
}

// The place of a word of a row of a matrix of `len` words.
pub(crate) fn place(len: usize, shape: Shape, row: usize, word: usize) -> usize
    requires { HasMatrixEntry shape.rows shape.words row word len }
    ensures is { result ≡ row * shape.words + word }
    ensures inside { result + (shape.words - word) ≤ len }
{
    row * shape.words + word
}

// The entry in this row and column.
pub(crate) fn entry(matrix: &[u64], shape: Shape, row: usize, column: usize) -> u64
    requires { HasBitEntry shape.rows shape.words row column (length matrix.now) }
    ensures { result ≡ bit_entry shape.words matrix.now row column }
{
    let own = place(matrix.len(), shape, row, column / 64);
    (matrix[own] >> (column % 64)) % 2
}

// Adds row `from`, whose entries before `column` are 0, to row `to`, which has to be another one.
pub(crate) fn add_row(matrix: &mut [u64], shape: Shape, to: usize, from: usize, column: usize)
    requires to { HasBitEntry shape.rows shape.words to column (length matrix.old) }
    requires from { from < shape.rows }
    requires other { from ≢ to }
    requires zeros { (j : ℕ) → j < column → bit_entry shape.words matrix.old from j ≡ 0 }
    ensures { IsBitRowWritten shape.words to
        (λ j. bit_xor (bit_entry shape.words matrix.old to j) (bit_entry shape.words matrix.old from j)) matrix.old matrix.new }
{
    let word = column / 64;
    let own = place(matrix.len(), shape, to, word);
    let other = place(matrix.len(), shape, from, word);
    add_range(matrix, own, other, shape.words - word);
}

// Adds a bit to the entry in this row and column.
pub(crate) fn add_entry(matrix: &mut [u64], shape: Shape, row: usize, column: usize, value: u64)
    requires place { HasBitEntry shape.rows shape.words row column (length matrix.old) }
    requires bit { value < 2 }
    ensures { IsBitWritten shape.words row column (bit_xor (bit_entry shape.words matrix.old row column) value) matrix.old matrix.new }
{
    add_bit(matrix, shape, row, column / 64, column % 64, value);
}

// The same where the column is place `bit` of a word.
pub(crate) fn add_bit(
    matrix: &mut [u64],
    shape: Shape,
    row: usize,
    word: usize,
    bit: usize,
    value: u64,
)
    requires place { HasMatrixEntry shape.rows shape.words row word (length matrix.old) }
    requires within { bit < 64 }
    requires bit { value < 2 }
    ensures { IsBitWritten shape.words row (64 * word + bit) (bit_xor (bit_entry shape.words matrix.old row (64 * word + bit)) value)
        matrix.old matrix.new }
{
    let own = place(matrix.len(), shape, row, word);
    matrix[own] ^= value << bit;
}

// Makes the words of a row from one on 0.
pub(crate) fn clear_row(matrix: &mut [u64], shape: Shape, row: usize, word: usize)
    requires { HasMatrixEntry shape.rows shape.words row word (length matrix.old) }
    ensures { IsBitRowWritten shape.words row (kept_before (64 * word) (bit_entry shape.words matrix.old row)) matrix.old matrix.new }
{
    let own = place(matrix.len(), shape, row, word);
    clear(matrix, own, shape.words - word);
}

// Makes words 0 from a place on.
pub(crate) fn clear(words: &mut [u64], first: usize, count: usize)
    requires { first + count ≤ length words.old }
    ensures { IsRangeWritten first count (λ p. 0) words.old words.new }
{
    for place in 0..count {
        words[first + place] = 0;
    }
}

// Adds the words from place `from` on to as many from place `to` on, which have to be others: 8 after the other, and what is left.
fn add_range(words: &mut [u64], to: usize, from: usize, count: usize)
    requires to { to + count ≤ length words.old }
    requires from { from + count ≤ length words.old }
    requires apart { (from + count ≤ to) ⊎ (to + count ≤ from) }
    ensures { IsRangeWritten to count
        (λ p. bit_xor (slice_index words.old (to + p)) (slice_index words.old (from + p))) words.old words.new }
{
    let strips = count / 8;
    for strip in 0..strips {
        add_few(words, to + 8 * strip, from + 8 * strip, 8);
    }
    add_few(words, to + 8 * strips, from + 8 * strips, count % 8);
}

// The same of up to 8 words. Where the count is a literal no loop is left in the machine code.
#[inline(always)]
fn add_few(words: &mut [u64], to: usize, from: usize, count: usize)
    requires few { count ≤ 8 }
    requires to { to + count ≤ length words.old }
    requires from { from + count ≤ length words.old }
    ensures { IsRangeWritten to count
        (λ p. bit_xor (slice_index words.old (to + p)) (slice_index words.old (from + p))) words.old words.new }
{
    let sums = words_from(words, from, count);
    add_words(words, to, count, &sums);
}

// Up to 8 words from a place on.
#[inline(always)]
pub(crate) fn words_from(words: &[u64], first: usize, count: usize) -> [u64; 8]
    requires few { count ≤ 8 }
    requires inside { first + count ≤ length words.now }
    ensures { (p : ℕ) → p < count → slice_index result p ≡ slice_index words.now (first + p) }
{
    let mut out = [0; 8];
    for place in 0..count {
        out[place] = words[first + place];
    }
    out
}

// Adds the first words of `sums` to the words from a place on.
#[inline(always)]
pub(crate) fn add_words(target: &mut [u64], first: usize, count: usize, sums: &[u64; 8])
    requires few { count ≤ 8 }
    requires inside { first + count ≤ length target.old }
    ensures { IsRangeWritten first count
        (λ p. bit_xor (slice_index target.old (first + p)) (slice_index sums.now p)) target.old target.new }
{
    for place in 0..count {
        target[first + place] ^= sums[place];
    }
}
