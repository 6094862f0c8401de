// Matrices over GF(2) drawn at random.
ghost use Rattle.std.specs.Prelude.{◌≡◌, ◌+◌, ◌*◌, ◌<◌, ◌≤◌, ℕ, length};
ghost use Rattle.field_slices.specs.Matrices.{HasMatrixRow};
ghost use Rattle.bits_packed.specs.BitMatrices.{IsBitRowWritten, IsDrawnMatrix, bit_entry, kept_before, words_for};

use crate::rows::{Shape, place};
use rand::distr::SampleStandard;
use rand_core::Rng;

/// Writes a matrix of `rows` rows of `columns` bits that are drawn from `rng` to `target`: the words are drawn one by one, word 0 of row 0
/// first, and the bits behind the columns are made 0. It takes no memory.
pub fn random_into<R: Rng>(target: &mut [u64], rows: usize, columns: usize, rng: &mut R)
    requires shape { length target.old ≡ rows * words_for columns }
    ensures shape { length target.new ≡ length target.old }
    ensures drawn { IsDrawnMatrix ⟦<u64 as SampleStandard>⟧.draws rows columns target.new (R.stream rng.old) (R.stream rng.new) }
{
    field_slices::matrices::random_into(target, rng);
    let words = columns.div_ceil(64);
    cut_rows(target, Shape { rows, words }, columns);
}

// Makes the bits of the rows from a column on 0. They begin in the last word of a row, or there are none.
fn cut_rows(matrix: &mut [u64], shape: Shape, column: usize)
    requires shape { length matrix.old ≡ shape.rows * shape.words }
    requires inside { column ≤ 64 * shape.words }
    requires last { 64 * shape.words < column + 64 }
    ensures shape { length matrix.new ≡ length matrix.old }
    ensures entries { (i j : ℕ) → i < shape.rows → j < 64 * shape.words
        → bit_entry shape.words matrix.new i j ≡ kept_before column (bit_entry shape.words matrix.old i) j }
{
    // Without columns there may be more rows than memory has places.
    if shape.words == 0 {
        return;
    }
    for row in 0..shape.rows {
        cut_row(matrix, shape, row, column);
    }
}

// The same of a row.
fn cut_row(matrix: &mut [u64], shape: Shape, row: usize, column: usize)
    requires row { HasMatrixRow shape.rows shape.words row (length matrix.old) }
    requires inside { column ≤ 64 * shape.words }
    requires last { 64 * shape.words < column + 64 }
    ensures { IsBitRowWritten shape.words row (kept_before column (bit_entry shape.words matrix.old row)) matrix.old matrix.new }
{
    if column % 64 != 0 {
        let own = place(matrix.len(), shape, row, column / 64);
        matrix[own] %= 1 << (column % 64);
    }
}
