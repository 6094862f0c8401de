// Calls over matrices over a field that the caller chooses, row after row.
// Written by scripts/make_c_exports.py; do not edit.
ghost use Rattle.std.specs.Prelude.{length};
ghost use Rattle.c_calls.specs.ChosenFields.{OverField, ReducesRowsOver, chosen_field};
ghost use Rattle.c_calls.specs.Matrices.{InvertsMatrix, MultipliesMatrices, SolvesEquations, TakesDeterminant, TakesRank};

use c_calls::{ChosenField, Wide};

/// The product of left, of rows rows of inner elements, and right, of inner rows of columns elements.
#[unsafe(no_mangle)]
pub extern "C" fn bf_field_matrix_multiply(
    field: &ChosenField,
    left: &[Wide],
    right: &[Wide],
    product: &mut [Wide],
    rows: u64,
    inner: u64,
    columns: u64,
) -> u32
    ensures { OverField field.now (MultipliesMatrices (chosen_field field.now) rows inner columns
        left.now right.now product.old product.new result) product.old product.new result }
{
    c_calls::field_matrices::multiply(*field, left, right, product, rows, inner, columns)
}

/// Brings a matrix of rows rows of columns elements to reduced row echelon form; rank is its rank, the first rank of the rows places of
/// pivots become the columns of its leading entries, and the others stay.
#[unsafe(no_mangle)]
pub extern "C" fn bf_field_matrix_row_reduce(
    field: &ChosenField,
    matrix: &mut [Wide],
    rows: u64,
    columns: u64,
    pivots: &mut [usize],
    rank: &mut usize,
) -> u32
    ensures { ReducesRowsOver field.now rows columns matrix.old pivots.old rank.old matrix.new pivots.new rank.new result }
{
    c_calls::field_matrices::row_reduce(*field, matrix, rows, columns, pivots, rank)
}

/// The rank of a matrix of rows rows of columns elements, in as much space and rows places, which may be written whatever the status.
#[unsafe(no_mangle)]
pub extern "C" fn bf_field_matrix_rank(
    field: &ChosenField,
    matrix: &[Wide],
    rows: u64,
    columns: u64,
    space: &mut [Wide],
    places: &mut [usize],
    rank: &mut usize,
) -> u32
    ensures { OverField field.now (TakesRank (chosen_field field.now) rows columns matrix.now
        (length space.old) (length places.old) rank.old rank.new result) rank.old rank.new result }
{
    c_calls::field_matrices::rank(*field, matrix, rows, columns, space, places, rank)
}

/// The determinant of a matrix of size rows of size elements, in as much space, which may be written whatever the status; 1 of no rows.
#[unsafe(no_mangle)]
pub extern "C" fn bf_field_matrix_determinant(
    field: &ChosenField,
    matrix: &[Wide],
    size: u64,
    space: &mut [Wide],
    determinant: &mut Wide,
) -> u32
    ensures { OverField field.now (TakesDeterminant (chosen_field field.now) size matrix.now (length
        space.old) determinant.old determinant.new result) determinant.old determinant.new result }
{
    c_calls::field_matrices::determinant(*field, matrix, size, space, determinant)
}

/// The inverse of a matrix of size rows of size elements, in space for two of these and size places, which may be written whatever the
/// status.
#[unsafe(no_mangle)]
pub extern "C" fn bf_field_matrix_inverse(
    field: &ChosenField,
    matrix: &[Wide],
    size: u64,
    inverse: &mut [Wide],
    space: &mut [Wide],
    places: &mut [usize],
) -> u32
    ensures { OverField field.now (InvertsMatrix (chosen_field field.now) size matrix.now (length
        space.old) (length places.old) inverse.old inverse.new result) inverse.old inverse.new
        result }
{
    c_calls::field_matrices::inverse(*field, matrix, size, inverse, space, places)
}

/// A solution x of matrix * x = right, of rows equations in columns unknowns, in space for rows times columns + 1 elements and rows
/// places, which may be written whatever the status; an unknown that the others leave open is 0.
#[unsafe(no_mangle)]
pub extern "C" fn bf_field_matrix_solve(
    field: &ChosenField,
    matrix: &[Wide],
    rows: u64,
    columns: u64,
    right: &[Wide],
    solution: &mut [Wide],
    space: &mut [Wide],
    places: &mut [usize],
) -> u32
    ensures { OverField field.now (SolvesEquations (chosen_field field.now) rows columns matrix.now
        right.now (length space.old) (length places.old) solution.old solution.new result)
        solution.old solution.new result }
{
    c_calls::field_matrices::solve(
        *field, matrix, rows, columns, right, solution, space, places,
    )
}
