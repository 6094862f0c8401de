// Matrices as products of triangular ones, after an exchange of rows, by elimination.
ghost use Rattle.std.specs.Prelude.{◌≡◌, ◌≢◌, ◌⊎◌, ◌+◌, ◌*◌, ◌<◌, ◌≤◌, ℕ, bit_xor, length, slice_index};
ghost use Rattle.std.specs.List.{range_with_len};
ghost use Rattle.std.specs.List.Sorted.{IsPermutation};
ghost use Rattle.field_slices.specs.Decompositions.{IsDecomposition, exchanged_entry};
ghost use Rattle.field_slices.specs.Matrices.{HasMatrixEntry, HasMatrixRow, entry_of};

use crate::identities::identity_into;
use crate::reduction::find_pivot;
use crate::rows::{Shape, add_scaled_row, entry, set_entry};
use crate::scalars::Scalars;

/// Takes a matrix of `rows` rows of `columns` entries apart into triangular ones whose product has its rows in another order. What is left
/// in `matrix` is upper triangular, with 0 where the column is before the row. `lower`, of `rows` rows of as many entries, becomes the
/// matrix that is multiplied with it from the left: lower triangular, with 1 for the entries (i, i). Row i of the product is row `order[i]`
/// of the matrix that was given. A row is exchanged only where its entry on the diagonal is 0, with the first below it that is not 0 there.
/// It takes no memory.
pub fn plu_decompose<S: Scalars>(
    field: S,
    matrix: &mut [S::Value],
    rows: usize,
    columns: usize,
    lower: &mut [S::Value],
    order: &mut [usize],
)
    requires shape { length matrix.old ≡ rows * columns }
    requires lower { length lower.old ≡ rows * rows }
    requires order { length order.old ≡ rows }
    ensures shape { length matrix.new ≡ length matrix.old }
    ensures lower { length lower.new ≡ length lower.old }
    ensures order { IsPermutation (range_with_len 0 rows) order.new }
    ensures decomposed { IsDecomposition (S.product field) rows columns columns (entry_of (S.number field) columns matrix.old)
        (slice_index order.new) (entry_of (S.number field) rows lower.new) (entry_of (S.number field) columns matrix.new) }
{
    let shape = Shape { rows, columns };
    identity_into(field, lower, rows);
    count_up(order);
    // Columns past as many as there are rows have no entry below the diagonal.
    let steps = columns.min(rows);
    for column in 0..steps {
        decompose_column(field, matrix, shape, column, lower, order);
    }
}

// Writes 0, 1, 2, .. to the places.
fn count_up(order: &mut [usize])
    ensures { order.new ≡ range_with_len 0 (length order.old) }
{
    for place in 0..order.len() {
        order[place] = place;
    }
}

// Goes on from a matrix whose columns before `column` are upper triangular to one column more. A column that is 0 from its row on stays.
fn decompose_column<S: Scalars>(
    field: S,
    matrix: &mut [S::Value],
    shape: Shape,
    column: usize,
    lower: &mut [S::Value],
    order: &mut [usize],
)
    requires shape { length matrix.old ≡ shape.rows * shape.columns }
    requires column { column < shape.columns }
    requires lower { length lower.old ≡ shape.rows * shape.rows }
    requires order { length order.old ≡ shape.rows }
    ensures shape { length matrix.new ≡ length matrix.old }
    ensures lower { length lower.new ≡ length lower.old }
    ensures order { IsPermutation order.old order.new }
    ensures decomposed { (A : ℕ → ℕ → ℕ)
        → IsDecomposition (S.product field) shape.rows shape.columns column A (slice_index order.old)
        (entry_of (S.number field) shape.rows lower.old)
        (entry_of (S.number field) shape.columns matrix.old)
        → IsDecomposition (S.product field) shape.rows shape.columns (column + 1) A (slice_index order.new)
        (entry_of (S.number field) shape.rows lower.new) (entry_of (S.number field) shape.columns matrix.new) }
{
    let square = Shape {
        rows: shape.rows,
        columns: shape.rows,
    };
    if let Some(row) = find_pivot(field, matrix, shape, column, column) {
        exchange_rows(field, matrix, shape, shape.columns, column, row);
        exchange_rows(field, lower, square, column, column, row);
        order.swap(column, row);
        write_factors(field, lower, matrix, shape, column);
        clear_below(field, matrix, lower, shape, column);
    }
}

// Exchanges the first `count` entries of two rows.
fn exchange_rows<S: Scalars>(
    field: S,
    matrix: &mut [S::Value],
    shape: Shape,
    count: usize,
    first: usize,
    second: usize,
)
    requires first { HasMatrixRow shape.rows shape.columns first (length matrix.old) }
    requires second { second < shape.rows }
    requires count { count ≤ shape.columns }
    ensures shape { length matrix.new ≡ length matrix.old }
    ensures entries { (i j : ℕ) → j < shape.columns → entry_of (S.number field) shape.columns matrix.new i j
        ≡ exchanged_entry first second count (entry_of (S.number field) shape.columns matrix.old) i j }
{
    for column in 0..count {
        let x = entry(field, matrix, shape, first, column);
        let y = entry(field, matrix, shape, second, column);
        set_entry(field, matrix, shape, first, column, y);
        set_entry(field, matrix, shape, second, column, x);
    }
}

// Writes to each row of `lower` below row `column` what row `column` of the matrix has to be multiplied by to have its entry in this
// column.
fn write_factors<S: Scalars>(
    field: S,
    lower: &mut [S::Value],
    matrix: &[S::Value],
    shape: Shape,
    column: usize,
)
    requires pivot { HasMatrixEntry shape.rows shape.columns column column (length matrix.now) }
    requires nonzero { entry_of (S.number field) shape.columns matrix.now column column ≢ 0 }
    requires lower { length lower.old ≡ shape.rows * shape.rows }
    ensures lower { length lower.new ≡ length lower.old }
    ensures factors { (i : ℕ) → column < i → i < shape.rows
        → S.product field (entry_of (S.number field) shape.rows lower.new i column)
        (entry_of (S.number field) shape.columns matrix.now column column)
        ≡ entry_of (S.number field) shape.columns matrix.now i column }
    ensures stays { (i j : ℕ) → j < shape.rows → (i ≤ column) ⊎ (j ≢ column)
        → entry_of (S.number field) shape.rows lower.new i j ≡ entry_of (S.number field) shape.rows lower.old i j }
{
    let square = Shape {
        rows: shape.rows,
        columns: shape.rows,
    };
    let inverse = field.invert(entry(field, matrix, shape, column, column));
    for row in column + 1..shape.rows {
        let value = entry(field, matrix, shape, row, column);
        set_entry(
            field,
            lower,
            square,
            row,
            column,
            field.multiply(inverse, value),
        );
    }
}

// Adds to each row below row `column` the multiple of that row whose factor `lower` has in this column.
fn clear_below<S: Scalars>(
    field: S,
    matrix: &mut [S::Value],
    lower: &[S::Value],
    shape: Shape,
    column: usize,
)
    requires pivot { HasMatrixEntry shape.rows shape.columns column column (length matrix.old) }
    requires lower { length lower.now ≡ shape.rows * shape.rows }
    ensures shape { length matrix.new ≡ length matrix.old }
    ensures cleared { (i j : ℕ) → column < i → i < shape.rows → j < shape.columns → entry_of (S.number field) shape.columns matrix.new i j
        ≡ bit_xor (entry_of (S.number field) shape.columns matrix.old i j)
        (S.product field (entry_of (S.number field) shape.rows lower.now i column)
        (entry_of (S.number field) shape.columns matrix.old column j)) }
    ensures stays { (i j : ℕ) → i ≤ column → j < shape.columns
        → entry_of (S.number field) shape.columns matrix.new i j ≡ entry_of (S.number field) shape.columns matrix.old i j }
{
    let square = Shape {
        rows: shape.rows,
        columns: shape.rows,
    };
    for row in column + 1..shape.rows {
        let factor = entry(field, lower, square, row, column);
        add_scaled_row(field, matrix, shape, row, column, factor);
    }
}
