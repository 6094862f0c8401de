// Entries of matrices, and row operations.
ghost use Rattle.std.specs.Prelude.{◌≡◌, ◌≢◌, ◌+◌, ◌*◌, ◌<◌, ◌≤◌, ℕ, bit_xor, length, map, slice_index};
ghost use Rattle.field_slices.specs.Matrices.{HasMatrixEntry, HasMatrixRow, IsEntryWritten, IsRowWritten, entry_of};

use crate::scalars::Scalars;

// How many rows and columns a matrix has.
#[derive(Clone, Copy)]
pub(crate) struct Shape {
    pub(crate) rows: usize,
    pub(crate) columns: usize,
}

// The place of an entry of a matrix of `len` entries.
fn place(len: usize, shape: Shape, row: usize, column: usize) -> usize
    requires { HasMatrixEntry shape.rows shape.columns row column len }
    ensures is { result ≡ row * shape.columns + column }
    ensures inside { result < len }
{
    row * shape.columns + column
}

// The entry in this row and column.
pub(crate) fn entry<S: Scalars>(
    field: S,
    matrix: &[S::Value],
    shape: Shape,
    row: usize,
    column: usize,
) -> S::Value
    requires { HasMatrixEntry shape.rows shape.columns row column (length matrix.now) }
    ensures { S.number field result ≡ entry_of (S.number field) shape.columns matrix.now row column }
{
    let own = place(matrix.len(), shape, row, column);
    matrix[own]
}

// Writes the entry in this row and column.
pub(crate) fn set_entry<S: Scalars>(
    field: S,
    matrix: &mut [S::Value],
    shape: Shape,
    row: usize,
    column: usize,
    value: S::Value,
)
    requires { HasMatrixEntry shape.rows shape.columns row column (length matrix.old) }
    ensures { IsEntryWritten (entry_of (S.number field) shape.columns) shape.columns row column (S.number field value)
        matrix.old matrix.new }
{
    let own = place(matrix.len(), shape, row, column);
    matrix[own] = value;
}

// The place at which a row of a matrix of `len` entries begins.
fn row_start(len: usize, shape: Shape, row: usize) -> usize
    requires { HasMatrixRow shape.rows shape.columns row len }
    ensures is { result ≡ row * shape.columns }
    ensures inside { result + shape.columns ≤ len }
{
    row * shape.columns
}

// A row of a matrix.
pub(crate) fn row_of<S: Scalars>(
    field: S,
    matrix: &[S::Value],
    shape: Shape,
    row: usize,
) -> &[S::Value]
    requires { HasMatrixRow shape.rows shape.columns row (length matrix.now) }
    ensures long { length result.now ≡ shape.columns }
    ensures entries { (j : ℕ) → j < shape.columns
        → slice_index (map (S.number field) result.now) j ≡ entry_of (S.number field) shape.columns matrix.now row j }
{
    let start = row_start(matrix.len(), shape, row);
    let (_before, rest) = matrix.split_at(start);
    let (own, _behind) = rest.split_at(shape.columns);
    own
}

// Adds `scalar` times the values to those of a row.
pub(crate) fn add_to_row<S: Scalars>(
    field: S,
    matrix: &mut [S::Value],
    shape: Shape,
    row: usize,
    scalar: S::Value,
    values: &[S::Value],
)
    requires row { HasMatrixRow shape.rows shape.columns row (length matrix.old) }
    requires values { length values.now ≡ shape.columns }
    ensures { IsRowWritten (entry_of (S.number field) shape.columns) shape.columns row
        (λ j. bit_xor (entry_of (S.number field) shape.columns matrix.old row j)
        (S.product field (S.number field scalar) (slice_index (map (S.number field) values.now) j))) matrix.old matrix.new }
{
    let start = row_start(matrix.len(), shape, row);
    let (_before, rest) = matrix.split_at_mut(start);
    let (own, _behind) = rest.split_at_mut(shape.columns);
    field.add_scaled(own, scalar, values);
}

// Adds `scalar` times row `from` to row `to`, which has to be another one.
pub(crate) fn add_scaled_row<S: Scalars>(
    field: S,
    matrix: &mut [S::Value],
    shape: Shape,
    to: usize,
    from: usize,
    scalar: S::Value,
)
    requires to { HasMatrixRow shape.rows shape.columns to (length matrix.old) }
    requires from { from < shape.rows }
    requires other { from ≢ to }
    ensures { IsRowWritten (entry_of (S.number field) shape.columns) shape.columns to
        (λ j. bit_xor (entry_of (S.number field) shape.columns matrix.old to j)
        (S.product field (S.number field scalar) (entry_of (S.number field) shape.columns matrix.old from j))) matrix.old matrix.new }
{
    // The matrix is split in front of the later one of the two rows.
    let Shape { rows, columns } = shape;
    let split = to.max(from);
    let start = row_start(matrix.len(), shape, split);
    let (front, back) = matrix.split_at_mut(start);
    let earlier = Shape {
        rows: split,
        columns,
    };
    let later = Shape {
        rows: rows - split,
        columns,
    };
    if from < to {
        add_to_row(
            field,
            back,
            later,
            0,
            scalar,
            row_of(field, front, earlier, from),
        );
    } else {
        add_to_row(
            field,
            front,
            earlier,
            to,
            scalar,
            row_of(field, back, later, 0),
        );
    }
}

// Multiplies a row by `scalar`.
pub(crate) fn scale_row<S: Scalars>(
    field: S,
    matrix: &mut [S::Value],
    shape: Shape,
    row: usize,
    scalar: S::Value,
)
    requires { HasMatrixRow shape.rows shape.columns row (length matrix.old) }
    ensures { IsRowWritten (entry_of (S.number field) shape.columns) shape.columns row
        (λ j. S.product field (S.number field scalar) (entry_of (S.number field) shape.columns matrix.old row j)) matrix.old matrix.new }
{
    for column in 0..shape.columns {
        let own = entry(field, matrix, shape, row, column);
        let value = field.multiply(scalar, own);
        set_entry(field, matrix, shape, row, column, value);
    }
}
