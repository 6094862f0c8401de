// Reduced row echelon form, by the elimination of Gauss and Jordan.
ghost use Rattle.std.specs.Prelude.{◌≡◌, ◌≢◌, ◌+◌, ◌*◌, ◌<◌, ◌≤◌, ℕ, IsNone, IfSome, length, slice_index};
ghost use Rattle.field_slices.specs.Matrices.{AreRowsReduced, HasMatrixEntry, HasMatrixRow, HaveSameRowSpace, IsReducedEchelon};
ghost use Rattle.field_slices.specs.Matrices.{IsRowWritten, cleared_entry, entry_of, joined_entry};

use crate::rows::{Shape, add_scaled_row, entry, scale_row};
use crate::scalars::Scalars;

/// Brings a matrix of `rows` rows of `columns` entries to reduced row echelon form, and returns its rank, which is the number of rows
/// that are not 0. Place i of `pivots`, which has to have as many places as there are rows, is then the column of the leading entry of row
/// i, for each i below the rank; the places from the rank on stay. It takes no memory.
pub fn row_reduce<S: Scalars>(
    field: S,
    matrix: &mut [S::Value],
    rows: usize,
    columns: usize,
    pivots: &mut [usize],
) -> usize
    requires shape { length matrix.old ≡ rows * columns }
    requires room { length pivots.old ≡ rows }
    ensures { AreRowsReduced (entry_of (S.number field) columns)
        (S.product field) rows columns columns result matrix.old matrix.new pivots.old pivots.new }
{
    row_reduce_augmented(field, matrix, rows, columns, columns, pivots)
}

/// The same by row operations on all columns that bring the first `count` of them alone, of which there may not be more than `columns`, to
/// reduced row echelon form. It returns the rank of these.
pub fn row_reduce_augmented<S: Scalars>(
    field: S,
    matrix: &mut [S::Value],
    rows: usize,
    columns: usize,
    count: usize,
    pivots: &mut [usize],
) -> usize
    requires shape { length matrix.old ≡ rows * columns }
    requires count { count ≤ columns }
    requires room { length pivots.old ≡ rows }
    ensures { AreRowsReduced (entry_of (S.number field) columns)
        (S.product field) rows columns count result matrix.old matrix.new pivots.old pivots.new }
{
    let shape = Shape { rows, columns };
    let mut rank = 0;
    for column in 0..count {
        // No row is left that could have a pivot, so that further columns need none.
        if rank == rows {
            return rank;
        }
        rank = reduce_column(field, matrix, shape, rank, column, pivots);
    }
    rank
}

// Goes on from a matrix whose columns before `column` are in reduced row echelon form to one column more, and returns the rank of these.
fn reduce_column<S: Scalars>(
    field: S,
    matrix: &mut [S::Value],
    shape: Shape,
    rank: usize,
    column: usize,
    pivots: &mut [usize],
) -> usize
    requires shape { length matrix.old ≡ shape.rows * shape.columns }
    requires room { length pivots.old ≡ shape.rows }
    requires column { column < shape.columns }
    requires reduced { IsReducedEchelon shape.rows column rank (slice_index pivots.old)
        (entry_of (S.number field) shape.columns matrix.old) }
    ensures reduced { AreRowsReduced (entry_of (S.number field) shape.columns) (S.product field) shape.rows shape.columns
        (column + 1) result
        matrix.old matrix.new pivots.old pivots.new }
    ensures grows { rank ≤ result }
{
    match find_pivot(field, matrix, shape, rank, column) {
        None => rank,
        Some(row) => {
            make_pivot(field, matrix, shape, rank, row, column);
            pivots[rank] = column;
            rank + 1
        }
    }
}

// The first row from `from` on that is not 0 in this column.
pub(crate) fn find_pivot<S: Scalars>(
    field: S,
    matrix: &[S::Value],
    shape: Shape,
    from: usize,
    column: usize,
) -> Option<usize>
    requires shape { length matrix.now ≡ shape.rows * shape.columns }
    requires column { column < shape.columns }
    ensures none { IsNone result → (i : ℕ) → from ≤ i → i < shape.rows → entry_of (S.number field) shape.columns matrix.now i column ≡ 0 }
    ensures inside { IfSome result (λ row. (from ≤ row) × (row < shape.rows)) }
    ensures nonzero { IfSome result (λ row. entry_of (S.number field) shape.columns matrix.now row column ≢ 0) }
    ensures first { IfSome result (λ row. (i : ℕ) → from ≤ i → i < row → entry_of (S.number field) shape.columns matrix.now i column ≡ 0) }
{
    for row in from..shape.rows {
        if !field.is_zero(entry(field, matrix, shape, row, column)) {
            return Some(row);
        }
    }
    None
}

// Makes row `rank` 1 in this column, and the others 0, by row operations. Row `row` is not 0 there, and row `rank` is 0, or that one. A
// column where both are 0 stays.
fn make_pivot<S: Scalars>(
    field: S,
    matrix: &mut [S::Value],
    shape: Shape,
    rank: usize,
    row: usize,
    column: usize,
)
    requires rank { HasMatrixEntry shape.rows shape.columns rank column (length matrix.old) }
    requires row { row < shape.rows }
    requires nonzero { entry_of (S.number field) shape.columns matrix.old row column ≢ 0 }
    requires first { row ≢ rank → entry_of (S.number field) shape.columns matrix.old rank column ≡ 0 }
    ensures shape { length matrix.new ≡ length matrix.old }
    ensures leading { entry_of (S.number field) shape.columns matrix.new rank column ≡ 1 }
    ensures alone { (i : ℕ) → i < shape.rows → i ≢ rank → entry_of (S.number field) shape.columns matrix.new i column ≡ 0 }
    ensures stays { (i j : ℕ) → i < shape.rows → j < shape.columns → entry_of (S.number field) shape.columns matrix.old rank j ≡ 0
        → entry_of (S.number field) shape.columns matrix.old row j ≡ 0
        → entry_of (S.number field) shape.columns matrix.new i j ≡ entry_of (S.number field) shape.columns matrix.old i j }
    ensures space { HaveSameRowSpace (S.product field) shape.rows shape.columns (entry_of (S.number field) shape.columns matrix.old)
        (entry_of (S.number field) shape.columns matrix.new) }
{
    bring_nonzero(field, matrix, shape, rank, row);
    let inverse = field.invert(entry(field, matrix, shape, rank, column));
    scale_row(field, matrix, shape, rank, inverse);
    clear_column(field, matrix, shape, 0, rank, column);
}

// Adds row `row` to row `rank`, if it is another one.
pub(crate) fn bring_nonzero<S: Scalars>(
    field: S,
    matrix: &mut [S::Value],
    shape: Shape,
    rank: usize,
    row: usize,
)
    requires rank { HasMatrixRow shape.rows shape.columns rank (length matrix.old) }
    requires row { row < shape.rows }
    ensures { IsRowWritten (entry_of (S.number field) shape.columns) shape.columns rank
        (joined_entry rank row (entry_of (S.number field) shape.columns matrix.old)) matrix.old matrix.new }
{
    if row != rank {
        add_scaled_row(field, matrix, shape, rank, row, field.one());
    }
}

// Makes the other rows from row `from` on 0 in this column, where row `row` is 1, by adding multiples of that row.
pub(crate) fn clear_column<S: Scalars>(
    field: S,
    matrix: &mut [S::Value],
    shape: Shape,
    from: usize,
    row: usize,
    column: usize,
)
    requires { HasMatrixEntry shape.rows shape.columns row column (length matrix.old) }
    ensures shape { length matrix.new ≡ length matrix.old }
    ensures cleared { (i j : ℕ) → from ≤ i → i < shape.rows → j < shape.columns → entry_of (S.number field) shape.columns matrix.new i j
        ≡ cleared_entry (S.product field) row column (entry_of (S.number field) shape.columns matrix.old) i j }
{
    for other in from..shape.rows {
        clear_entry(field, matrix, shape, row, other, column);
    }
}

// Adds to row `other` the multiple of row `row` that its entry in this column says; to that row itself nothing.
fn clear_entry<S: Scalars>(
    field: S,
    matrix: &mut [S::Value],
    shape: Shape,
    row: usize,
    other: usize,
    column: usize,
)
    requires row { HasMatrixEntry shape.rows shape.columns row column (length matrix.old) }
    requires other { other < shape.rows }
    ensures { IsRowWritten (entry_of (S.number field) shape.columns) shape.columns other
        (cleared_entry (S.product field) row column (entry_of (S.number field) shape.columns matrix.old) other) matrix.old matrix.new }
{
    if other != row {
        let scalar = entry(field, matrix, shape, other, column);
        add_scaled_row(field, matrix, shape, other, row, scalar);
    }
}
