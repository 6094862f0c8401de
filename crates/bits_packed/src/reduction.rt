// Reduced row echelon form over GF(2), by the elimination of Gauss and Jordan, where a row is scaled by 1 alone, and the method of the four
// Russians.
ghost use Rattle.std.specs.Prelude.{◌≡◌, ◌≢◌, ◌+◌, ◌*◌, ◌/◌, ◌%◌, ◌<◌, ◌≤◌, ℕ, IsNone, IfSome, length, min, slice_index};
ghost use Rattle.field_base.specs.Tower.{tower_mul};
ghost use Rattle.field_slices.specs.Matrices.{AreRowsReduced, HaveSameRowSpace, IsReducedEchelon, joined_entry};
ghost use Rattle.bits_packed.specs.BitMatrices.{ArePivotPlaces, HasBitEntry, IsBitRowWritten, IsStripAdded};
ghost use Rattle.bits_packed.specs.BitMatrices.{bit_entry, present_bit, word_of, words_for};

use crate::pending::add_sums;
use crate::rows::{Shape, add_entry, add_row, entry, place};

// Columns are eliminated 64 at a time, those of one word of each row. Row operations are made in this word, pivot after pivot. A column with
// a pivot is 0 but in the row of the pivot, so that its bits need not be stored: in their place each row notes whether the row of the pivot
// is still to be added to it behind the word. There no row of a pivot changes before the word is done, so that this sum is one of rows as
// they are stored. `present_entry` is the matrix that is stored so. At the end of the word each row has its sum added, by tables.

/// Brings a matrix of `rows` rows of `columns` bits to reduced row echelon form, and returns its rank, which is the number of rows that
/// are not 0. Place i of `pivots`, which has to have as many places as there are rows, is then the column of the leading entry of row i,
/// for each i below the rank; the places from the rank on stay. Bits behind the columns go through the same sums of rows, so they are 0
/// where they were. It takes no memory.
pub fn row_reduce(matrix: &mut [u64], rows: usize, columns: usize, pivots: &mut [usize]) -> usize
    requires shape { length matrix.old ≡ rows * words_for columns }
    requires room { length pivots.old ≡ rows }
    ensures reduced { AreRowsReduced (bit_entry (words_for columns)) (tower_mul 0) rows columns columns result matrix.old matrix.new
        pivots.old pivots.new }
    ensures whole { HaveSameRowSpace (tower_mul 0) rows (64 * words_for columns) (bit_entry (words_for columns) matrix.old)
        (bit_entry (words_for columns) matrix.new) }
{
    row_reduce_augmented(matrix, rows, columns, columns, pivots)
}

/// The same by row operations on all columns that bring the first `count` of them alone, of which there may not be more than `columns`, to
/// reduced row echelon form. It returns the rank of these.
pub fn row_reduce_augmented(
    matrix: &mut [u64],
    rows: usize,
    columns: usize,
    count: usize,
    pivots: &mut [usize],
) -> usize
    requires shape { length matrix.old ≡ rows * words_for columns }
    requires count { count ≤ columns }
    requires room { length pivots.old ≡ rows }
    ensures reduced { AreRowsReduced (bit_entry (words_for columns)) (tower_mul 0) rows columns count result matrix.old matrix.new
        pivots.old pivots.new }
    ensures whole { HaveSameRowSpace (tower_mul 0) rows (64 * words_for columns) (bit_entry (words_for columns) matrix.old)
        (bit_entry (words_for columns) matrix.new) }
{
    let words = columns.div_ceil(64);
    reduce_words(matrix, Shape { rows, words }, count, pivots)
}

// The same of a matrix of this shape.
pub(crate) fn reduce_words(
    matrix: &mut [u64],
    shape: Shape,
    count: usize,
    pivots: &mut [usize],
) -> usize
    requires shape { length matrix.old ≡ shape.rows * shape.words }
    requires count { count ≤ 64 * shape.words }
    requires room { length pivots.old ≡ shape.rows }
    ensures { AreRowsReduced (bit_entry shape.words) (tower_mul 0) shape.rows (64 * shape.words) count result matrix.old matrix.new
        pivots.old pivots.new }
{
    let mut rank = 0;
    let strips = count.div_ceil(64);
    for index in 0..strips {
        // No row is left that could have a pivot, so that further columns need none.
        if rank == shape.rows {
            return rank;
        }
        let from = 64 * index;
        let to = strip_end(count, from);
        rank = reduce_strip(matrix, shape, rank, from, to, pivots);
    }
    rank
}

// Where 64 columns from one on end, or as many as there are.
fn strip_end(count: usize, from: usize) -> usize
    requires { from < count }
    ensures { result ≡ min (from + 64) count }
{
    let left = count - from;
    if left < 64 { count } else { from + 64 }
}

// Goes on from a matrix whose columns before `from`, the first one of a word, are in reduced row echelon form to the columns before `to`,
// 64 more at most, and returns the rank of these.
fn reduce_strip(
    matrix: &mut [u64],
    shape: Shape,
    rank: usize,
    from: usize,
    to: usize,
    pivots: &mut [usize],
) -> usize
    requires shape { length matrix.old ≡ shape.rows * shape.words }
    requires room { length pivots.old ≡ shape.rows }
    requires word { from % 64 ≡ 0 }
    requires more { from < to }
    requires few { to ≤ from + 64 }
    requires within { to ≤ 64 * shape.words }
    requires reduced { IsReducedEchelon shape.rows from rank (slice_index pivots.old) (bit_entry shape.words matrix.old) }
    ensures reduced { AreRowsReduced (bit_entry shape.words) (tower_mul 0) shape.rows (64 * shape.words) to result matrix.old matrix.new
        pivots.old pivots.new }
    ensures grows { rank ≤ result }
{
    let mut places = [shape.rows; 64];
    let mut found = rank;
    for column in from..to {
        found = reduce_column(matrix, shape, found, column, pivots, &mut places);
    }
    add_sums(matrix, shape, from / 64, &places);
    found
}

// Goes on from a matrix whose columns before `column` are in reduced row echelon form to one column more, and returns the rank of these.
// The matrix is what is stored stands for, where bit b of the word of the column has its pivot in row `places[b]`, if there is such a row.
fn reduce_column(
    matrix: &mut [u64],
    shape: Shape,
    rank: usize,
    column: usize,
    pivots: &mut [usize],
    places: &mut [usize; 64],
) -> usize
    requires shape { length matrix.old ≡ shape.rows * shape.words }
    requires room { length pivots.old ≡ shape.rows }
    requires column { column < 64 * shape.words }
    requires places { ArePivotPlaces shape.rows rank (column % 64) (slice_index places.old) }
    requires reduced { IsReducedEchelon shape.rows column rank (slice_index pivots.old)
        (present_bit shape.rows shape.words column places.old matrix.old) }
    ensures shape { length matrix.new ≡ length matrix.old }
    ensures room { length pivots.new ≡ length pivots.old }
    ensures places { ArePivotPlaces shape.rows result (column % 64 + 1) (slice_index places.new) }
    ensures reduced { IsReducedEchelon shape.rows (column + 1) result (slice_index pivots.new)
        (present_bit shape.rows shape.words column places.new matrix.new) }
    ensures grows { rank ≤ result }
    ensures rest { (i : ℕ) → result ≤ i → slice_index pivots.new i ≡ slice_index pivots.old i }
    ensures space { HaveSameRowSpace (tower_mul 0) shape.rows (64 * shape.words)
        (present_bit shape.rows shape.words column places.old matrix.old)
        (present_bit shape.rows shape.words column places.new matrix.new) }
{
    match find_pivot(matrix, shape, rank, column) {
        None => rank,
        Some(row) => {
            make_pivot(matrix, shape, rank, row, column, places);
            pivots[rank] = column;
            rank + 1
        }
    }
}

// The first row from `from` on that is not 0 in this column.
pub(crate) fn find_pivot(matrix: &[u64], shape: Shape, from: usize, column: usize) -> Option<usize>
    requires shape { length matrix.now ≡ shape.rows * shape.words }
    requires column { column < 64 * shape.words }
    ensures none { IsNone result → (i : ℕ) → from ≤ i → i < shape.rows → bit_entry shape.words matrix.now i column ≡ 0 }
    ensures inside { IfSome result (λ row. (from ≤ row) × (row < shape.rows)) }
    ensures nonzero { IfSome result (λ row. bit_entry shape.words matrix.now row column ≢ 0) }
    ensures first { IfSome result (λ row. (i : ℕ) → from ≤ i → i < row → bit_entry shape.words matrix.now i column ≡ 0) }
{
    for row in from..shape.rows {
        if entry(matrix, shape, row, column) != 0 {
            return Some(row);
        }
    }
    None
}

// Makes row `rank` 1 in this column, and the others 0, by sums of rows. Row `row` is not 0 there, and row `rank` is 0, or that one. Both
// are 0 before the column. A column where both are 0 stays.
fn make_pivot(
    matrix: &mut [u64],
    shape: Shape,
    rank: usize,
    row: usize,
    column: usize,
    places: &mut [usize; 64],
)
    requires rank { HasBitEntry shape.rows shape.words rank column (length matrix.old) }
    requires row { row < shape.rows }
    requires behind { rank ≤ row }
    requires nonzero { bit_entry shape.words matrix.old row column ≢ 0 }
    requires first { row ≢ rank → bit_entry shape.words matrix.old rank column ≡ 0 }
    requires places { ArePivotPlaces shape.rows rank (column % 64) (slice_index places.old) }
    requires rank_zeros { (j : ℕ) → j < column
        → present_bit shape.rows shape.words column places.old matrix.old rank j ≡ 0 }
    requires row_zeros { (j : ℕ) → j < column
        → present_bit shape.rows shape.words column places.old matrix.old row j ≡ 0 }
    ensures shape { length matrix.new ≡ length matrix.old }
    ensures places { ArePivotPlaces shape.rows (rank + 1) (column % 64 + 1) (slice_index places.new) }
    ensures leading { present_bit shape.rows shape.words column places.new matrix.new rank column ≡ 1 }
    ensures alone { (i : ℕ) → i < shape.rows → i ≢ rank → present_bit shape.rows shape.words column places.new matrix.new i column ≡ 0 }
    ensures stays { (i j : ℕ) → i < shape.rows → j < 64 * shape.words
        → present_bit shape.rows shape.words column places.old matrix.old rank j ≡ 0
        → present_bit shape.rows shape.words column places.old matrix.old row j ≡ 0
        → present_bit shape.rows shape.words column places.new matrix.new i j
        ≡ present_bit shape.rows shape.words column places.old matrix.old i j }
    ensures space { HaveSameRowSpace (tower_mul 0) shape.rows (64 * shape.words)
        (present_bit shape.rows shape.words column places.old matrix.old)
        (present_bit shape.rows shape.words column places.new matrix.new) }
{
    bring_nonzero(matrix, shape, rank, row, column - column % 64);
    add_entry(matrix, shape, rank, column, 1);
    add_word_of(matrix, shape, rank, column);
    places[column % 64] = rank;
}

// Adds row `row`, which is 0 before the column, to row `rank`, if it is another one.
fn bring_nonzero(matrix: &mut [u64], shape: Shape, rank: usize, row: usize, column: usize)
    requires rank { HasBitEntry shape.rows shape.words rank column (length matrix.old) }
    requires row { row < shape.rows }
    requires zeros { (j : ℕ) → j < column → bit_entry shape.words matrix.old row j ≡ 0 }
    ensures { IsBitRowWritten shape.words rank (joined_entry rank row (bit_entry shape.words matrix.old)) matrix.old matrix.new }
{
    if row != rank {
        add_row(matrix, shape, rank, row, column);
    }
}

// Adds the word of row `row` that has this column, where the row is 0, to that of each row that is 1 in the column.
fn add_word_of(matrix: &mut [u64], shape: Shape, row: usize, column: usize)
    requires row { HasBitEntry shape.rows shape.words row column (length matrix.old) }
    ensures { IsStripAdded shape.words (column / 64) 1 shape.rows
        (λ i w. bit_entry shape.words matrix.old i column * word_of shape.words matrix.old row (column / 64)) matrix.old matrix.new }
{
    let own = place(matrix.len(), shape, row, column / 64);
    let word = matrix[own];
    for other in 0..shape.rows {
        let at = place(matrix.len(), shape, other, column / 64);
        let bit = (matrix[at] >> (column % 64)) % 2;
        matrix[at] ^= bit * word;
    }
}
