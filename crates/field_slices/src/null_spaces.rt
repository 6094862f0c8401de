// Null spaces of matrices in reduced row echelon form.
ghost use Rattle.std.specs.Prelude.{◌≡◌, ◌≢◌, ◌-◌, ◌*◌, ◌<◌, ◌≤◌, ℕ, IsTrue, false, length, slice_index};
ghost use Rattle.field_slices.specs.Matrices.{HasMatrixRow, IsNullBasis, IsReducedEchelon, IsRowWritten, entry_of, null_entry};

use crate::identities::write_identity_row;
use crate::rows::{Shape, entry, set_entry};
use crate::scalars::Scalars;

/// Writes a basis of the vectors that a matrix in reduced row echelon form takes to 0 to the rows of `basis`: one for each column without a
/// leading entry, where it is 1 and the others are 0. `reduced`, whose rows have `columns` entries, and `pivots` and `rank` are what
/// `row_reduce` leaves and returns. It takes no memory.
pub fn null_space_into<S: Scalars>(
    field: S,
    basis: &mut [S::Value],
    reduced: &[S::Value],
    columns: usize,
    rank: usize,
    pivots: &[usize],
)
    requires source { length reduced.now ≡ length pivots.now * columns }
    requires reduced { IsReducedEchelon (length pivots.now) columns rank (slice_index pivots.now)
        (entry_of (S.number field) columns reduced.now) }
    requires shape { length basis.old ≡ (columns - rank) * columns }
    ensures shape { length basis.new ≡ length basis.old }
    ensures basis { IsNullBasis (S.width field) (S.product field) (length pivots.now) columns (columns - rank)
        (entry_of (S.number field) columns reduced.now)
        (entry_of (S.number field) columns basis.new) }
{
    let shape = Shape {
        rows: columns - rank,
        columns,
    };
    let mut passed = 0;
    for column in 0..columns {
        if leads_at(pivots, rank, passed, column) {
            passed += 1;
        } else {
            write_null_row(
                field,
                basis,
                shape,
                column - passed,
                column,
                reduced,
                rank,
                pivots,
            );
        }
    }
}

/// Whether the next leading entry, behind those of `passed` rows, stands in this column; `pivots` begins with the columns of `rank` leading
/// entries.
pub fn leads_at(pivots: &[usize], rank: usize, passed: usize, column: usize) -> bool
    requires { rank ≤ length pivots.now }
    ensures next { IsTrue result → (passed < rank) × (slice_index pivots.now passed ≡ column) }
    ensures none { result ≡ false → passed < rank → slice_index pivots.now passed ≢ column }
{
    passed < rank && pivots[passed] == column
}

// Writes the vector of a column to a row.
fn write_null_row<S: Scalars>(
    field: S,
    basis: &mut [S::Value],
    shape: Shape,
    row: usize,
    column: usize,
    reduced: &[S::Value],
    rank: usize,
    pivots: &[usize],
)
    requires row { HasMatrixRow shape.rows shape.columns row (length basis.old) }
    requires source { length reduced.now ≡ length pivots.now * shape.columns }
    requires rank { rank ≤ length pivots.now }
    requires inside { (k : ℕ) → k < rank → slice_index pivots.now k < shape.columns }
    requires column { column < shape.columns }
    ensures { IsRowWritten (entry_of (S.number field) shape.columns) shape.columns row
        (null_entry (slice_index pivots.now) (entry_of (S.number field) shape.columns reduced.now) column rank) basis.old basis.new }
{
    let source = Shape {
        rows: pivots.len(),
        columns: shape.columns,
    };
    write_identity_row(field, basis, shape, row, 0, column);
    for k in 0..rank {
        let value = entry(field, reduced, source, k, column);
        set_entry(field, basis, shape, row, pivots[k], value);
    }
}
