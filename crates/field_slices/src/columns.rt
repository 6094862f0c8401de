// Some columns of a matrix, copied to those of another.
ghost use Rattle.std.specs.Prelude.{◌≡◌, ◌+◌, ◌*◌, ◌<◌, ◌≤◌, ℕ, length};
ghost use Rattle.field_slices.specs.Matrices.{HasMatrixRow, IsRowWritten, entry_of, put_entry};

use crate::rows::{Shape, entry, set_entry};
use crate::scalars::Scalars;

/// Which columns are copied: in each of `rows` rows, `count` from column `from` on of a matrix of `columns` columns, to column `to` and
/// those behind it of a matrix of `target_columns` columns.
#[derive(Clone, Copy)]
pub struct ColumnCopy {
    /// How many rows there are.
    pub rows: usize,
    /// How many columns the matrix has that is read.
    pub columns: usize,
    /// The first column that is read.
    pub from: usize,
    /// How many columns the matrix has that is written.
    pub target_columns: usize,
    /// The first column that is written.
    pub to: usize,
    /// How many columns are copied.
    pub count: usize,
}

/// Copies some columns of `source` to columns of `target`, and leaves the others there. Each of both has these columns. It takes no memory.
pub fn copy_columns<S: Scalars>(
    field: S,
    target: &mut [S::Value],
    source: &[S::Value],
    copy: ColumnCopy,
)
    requires source { length source.now ≡ copy.rows * copy.columns }
    requires shape { length target.old ≡ copy.rows * copy.target_columns }
    requires inside { copy.from + copy.count ≤ copy.columns }
    requires room { copy.to + copy.count ≤ copy.target_columns }
    ensures shape { length target.new ≡ length target.old }
    ensures entries { (i j : ℕ) → i < copy.rows → j < copy.target_columns → entry_of (S.number field) copy.target_columns target.new i j
        ≡ put_entry copy.to copy.count (λ k. entry_of (S.number field) copy.columns source.now i (copy.from + k))
        (entry_of (S.number field) copy.target_columns target.old i) j }
{
    // Without columns there may be more rows than memory has places.
    if copy.target_columns == 0 {
        return;
    }
    for row in 0..copy.rows {
        copy_row(field, target, source, copy, row);
    }
}

// Copies the columns in one row.
fn copy_row<S: Scalars>(
    field: S,
    target: &mut [S::Value],
    source: &[S::Value],
    copy: ColumnCopy,
    row: usize,
)
    requires source { length source.now ≡ copy.rows * copy.columns }
    requires row { HasMatrixRow copy.rows copy.target_columns row (length target.old) }
    requires inside { copy.from + copy.count ≤ copy.columns }
    requires room { copy.to + copy.count ≤ copy.target_columns }
    ensures { IsRowWritten (entry_of (S.number field) copy.target_columns) copy.target_columns row
        (put_entry copy.to copy.count (λ k. entry_of (S.number field) copy.columns source.now row (copy.from + k))
        (entry_of (S.number field) copy.target_columns target.old row)) target.old target.new }
{
    let ColumnCopy { rows, from, to, .. } = copy;
    let source_shape = Shape {
        rows,
        columns: copy.columns,
    };
    let target_shape = Shape {
        rows,
        columns: copy.target_columns,
    };
    for column in to..to + copy.count {
        let value = entry(field, source, source_shape, row, from + (column - to));
        set_entry(field, target, target_shape, row, column, value);
    }
}
