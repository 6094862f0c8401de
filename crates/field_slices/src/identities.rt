// The identity matrix, alone and behind other columns.
ghost use Rattle.std.specs.Prelude.{◌≡◌, ◌+◌, ◌*◌, ◌<◌, ℕ, length};
ghost use Rattle.field_slices.specs.Matrices.{HasMatrixRow, IsRowWritten, beside_identity, entry_of, identity_entry};

use crate::rows::{Shape, set_entry};
use crate::scalars::Scalars;

/// Writes the identity matrix of `size` rows to `target`: entry (i, j) is 1 for i = j, and else 0. It takes no memory.
pub fn identity_into<S: Scalars>(field: S, target: &mut [S::Value], size: usize)
    requires shape { length target.old ≡ size * size }
    ensures shape { length target.new ≡ length target.old }
    ensures entries { (i j : ℕ) → i < size → j < size → entry_of (S.number field) size target.new i j ≡ identity_entry i j }
{
    let shape = Shape {
        rows: size,
        columns: size,
    };
    write_identity(field, target, shape, 0);
}

// Writes the identity matrix to the columns from `from` on, of which there are as many as rows.
pub(crate) fn write_identity<S: Scalars>(
    field: S,
    matrix: &mut [S::Value],
    shape: Shape,
    from: usize,
)
    requires columns { shape.columns ≡ from + shape.rows }
    requires shape { length matrix.old ≡ shape.rows * shape.columns }
    ensures shape { length matrix.new ≡ length matrix.old }
    ensures entries { (i j : ℕ) → i < shape.rows → j < shape.columns → entry_of (S.number field) shape.columns matrix.new i j
        ≡ beside_identity from (entry_of (S.number field) shape.columns matrix.old) i j }
{
    for row in 0..shape.rows {
        write_identity_row(field, matrix, shape, row, from, row);
    }
}

// Writes row `place` of an identity matrix to the columns of a row from `from` on.
pub(crate) fn write_identity_row<S: Scalars>(
    field: S,
    matrix: &mut [S::Value],
    shape: Shape,
    row: usize,
    from: usize,
    place: usize,
)
    requires { HasMatrixRow shape.rows shape.columns row (length matrix.old) }
    ensures { IsRowWritten (entry_of (S.number field) shape.columns) shape.columns row
        (beside_identity from (λ i. entry_of (S.number field) shape.columns matrix.old row) place) matrix.old matrix.new }
{
    for column in from..shape.columns {
        let value = identity_value(field, place, column - from);
        set_entry(field, matrix, shape, row, column, value);
    }
}

// An entry of the identity matrix.
pub(crate) fn identity_value<S: Scalars>(field: S, row: usize, column: usize) -> S::Value
    ensures { S.number field result ≡ identity_entry row column }
{
    if row == column {
        return field.one();
    }
    field.zero()
}
