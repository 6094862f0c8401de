// Products and transposes of matrices.
ghost use Rattle.std.specs.Prelude.{◌≡◌, ◌*◌, ◌<◌, ℕ, length};
ghost use Rattle.field_slices.specs.Matrices.{HasMatrixRow, IsMatrixProduct, IsRowWritten, entry_of, product_entry};

use crate::rows::{Shape, add_to_row, entry, row_of, set_entry};
use crate::scalars::Scalars;

/// Writes the product of two matrices to `target`: entry (i, j) is the sum over k of entry (i, k) of `left` times entry (k, j) of `right`.
/// `left` has `rows` rows of `inner` entries, `right` has `inner` rows of `columns` entries, and `target` has `rows` rows of `columns`
/// entries. A vector is a matrix of one column, or of one row. It takes no memory.
pub fn multiply_into<S: Scalars>(
    field: S,
    target: &mut [S::Value],
    left: &[S::Value],
    right: &[S::Value],
    rows: usize,
    inner: usize,
    columns: usize,
)
    requires left { length left.now ≡ rows * inner }
    requires right { length right.now ≡ inner * columns }
    requires shape { length target.old ≡ rows * columns }
    ensures shape { length target.new ≡ length target.old }
    ensures product { IsMatrixProduct (S.product field) rows inner columns (entry_of (S.number field) inner left.now)
        (entry_of (S.number field) columns right.now) (entry_of (S.number field) columns target.new) }
{
    // Without columns there may be more rows than memory has places.
    if columns == 0 {
        return;
    }
    let shape = Shape { rows, columns };
    for row in 0..rows {
        write_product_row(field, target, shape, left, right, inner, row);
    }
}

// Writes a row of the product, and leaves the other rows: the sum of the rows of `right`, times the entries of the row of `left`.
fn write_product_row<S: Scalars>(
    field: S,
    target: &mut [S::Value],
    shape: Shape,
    left: &[S::Value],
    right: &[S::Value],
    inner: usize,
    row: usize,
)
    requires left { length left.now ≡ shape.rows * inner }
    requires right { length right.now ≡ inner * shape.columns }
    requires row { HasMatrixRow shape.rows shape.columns row (length target.old) }
    ensures { IsRowWritten (entry_of (S.number field) shape.columns) shape.columns row
        (product_entry (S.product field) inner (entry_of (S.number field) inner left.now)
        (entry_of (S.number field) shape.columns right.now) row)
        target.old target.new }
{
    let Shape { rows, columns } = shape;
    let left_shape = Shape {
        rows,
        columns: inner,
    };
    let right_shape = Shape {
        rows: inner,
        columns,
    };
    write_zero_row(field, target, shape, row);
    for k in 0..inner {
        let scalar = entry(field, left, left_shape, row, k);
        add_to_row(
            field,
            target,
            shape,
            row,
            scalar,
            row_of(field, right, right_shape, k),
        );
    }
}

// Makes the entries of a row 0, and leaves the other rows.
fn write_zero_row<S: Scalars>(field: S, target: &mut [S::Value], shape: Shape, row: usize)
    requires { HasMatrixRow shape.rows shape.columns row (length target.old) }
    ensures { IsRowWritten (entry_of (S.number field) shape.columns) shape.columns row (λ j. 0) target.old target.new }
{
    for column in 0..shape.columns {
        set_entry(field, target, shape, row, column, field.zero());
    }
}

/// Writes the transpose of `source`, a matrix of `rows` rows of `columns` entries, to `target`, of `columns` rows of `rows` entries: its
/// entry (i, j) is entry (j, i) of `source`. It takes no memory.
pub fn transpose_into<S: Scalars>(
    field: S,
    target: &mut [S::Value],
    source: &[S::Value],
    rows: usize,
    columns: usize,
)
    requires source { length source.now ≡ rows * columns }
    requires shape { length target.old ≡ columns * rows }
    ensures shape { length target.new ≡ length target.old }
    ensures entries { (i j : ℕ) → i < columns → j < rows
        → entry_of (S.number field) rows target.new i j ≡ entry_of (S.number field) columns source.now j i }
{
    // Without rows there may be more columns than memory has places.
    if rows == 0 {
        return;
    }
    let shape = Shape { rows, columns };
    for row in 0..columns {
        write_transposed_row(field, target, source, shape, row);
    }
}

// Writes a row of the transpose of a matrix of this shape, and leaves the other rows.
fn write_transposed_row<S: Scalars>(
    field: S,
    target: &mut [S::Value],
    source: &[S::Value],
    shape: Shape,
    row: usize,
)
    requires source { length source.now ≡ shape.rows * shape.columns }
    requires row { HasMatrixRow shape.columns shape.rows row (length target.old) }
    ensures { IsRowWritten (entry_of (S.number field) shape.rows) shape.rows row (λ j. entry_of
        (S.number field) shape.columns source.now j row) target.old target.new }
{
    let Shape { rows, columns } = shape;
    let transposed = Shape {
        rows: columns,
        columns: rows,
    };
    for column in 0..rows {
        let value = entry(field, source, shape, column, row);
        set_entry(field, target, transposed, row, column, value);
    }
}
