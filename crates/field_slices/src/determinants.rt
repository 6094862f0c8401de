// Determinants, by elimination.
ghost use Rattle.std.specs.Prelude.{◌≡◌, ◌+◌, ◌-◌, ◌*◌, IfSome, IsNone, length};
ghost use Rattle.field_slices.specs.Determinants.{corner_entry, determinant_of};
ghost use Rattle.field_slices.specs.Matrices.{HasMatrixEntry, entry_of};

use crate::reduction::{bring_nonzero, clear_column, find_pivot};
use crate::rows::{Shape, entry, scale_row};
use crate::scalars::Scalars;

/// The determinant of a matrix of `size` rows of as many entries, by elimination; of no rows it is 1. What is left in `matrix` is not
/// specified. It takes no memory.
pub fn determinant<S: Scalars>(field: S, matrix: &mut [S::Value], size: usize) -> S::Value
    requires shape { length matrix.old ≡ size * size }
    ensures shape { length matrix.new ≡ length matrix.old }
    ensures determinant { S.number field result ≡ determinant_of (S.product field) size (entry_of (S.number field) size matrix.old) }
{
    let shape = Shape {
        rows: size,
        columns: size,
    };
    let mut product = field.one();
    for step in 0..size {
        match take_pivot(field, matrix, shape, step) {
            None => return field.zero(),
            Some(pivot) => product = field.multiply(product, pivot),
        }
    }
    product
}

// Makes the entry in row and column `step` 1, and those below it 0, by row operations, and returns what the determinant of the rows and
// columns from there on is divided by; none where that determinant is 0, since this column has only zeros from row `step` on.
fn take_pivot<S: Scalars>(
    field: S,
    matrix: &mut [S::Value],
    shape: Shape,
    step: usize,
) -> Option<S::Value>
    requires square { shape.columns ≡ shape.rows }
    requires shape { HasMatrixEntry shape.rows shape.columns step step (length matrix.old) }
    ensures shape { length matrix.new ≡ length matrix.old }
    ensures none { IsNone result
        → determinant_of (S.product field) (shape.rows - step) (corner_entry step (entry_of (S.number field) shape.columns matrix.old))
        ≡ 0 }
    ensures divided { IfSome result (λ pivot.
        determinant_of (S.product field) (shape.rows - step) (corner_entry step (entry_of (S.number field) shape.columns matrix.old))
        ≡ S.product field (S.number field pivot)
        (determinant_of (S.product field) (shape.rows - (step + 1))
        (corner_entry (step + 1) (entry_of (S.number field) shape.columns matrix.new)))) }
{
    let row = find_pivot(field, matrix, shape, step, step)?;
    bring_nonzero(field, matrix, shape, step, row);
    let pivot = entry(field, matrix, shape, step, step);
    scale_row(field, matrix, shape, step, field.invert(pivot));
    clear_column(field, matrix, shape, step, step, step);
    Some(pivot)
}
