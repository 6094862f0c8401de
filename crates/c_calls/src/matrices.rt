// Products, eliminations, inverses, determinants and linear equations of matrices of words, over any field, row after row in a slice.
ghost use Rattle.std.specs.Prelude.{◌↔◌, IsTrue, length};
ghost use Rattle.c_calls.specs.Matrices.{HaveEquationLengths, InvertsMatrix, MultipliesMatrices, ReducesRows, SolvesEquations};
ghost use Rattle.c_calls.specs.Matrices.{TakesDeterminant, TakesRank};

use crate::low_bits::{LowBits, truncate_all};
use crate::shapes::{has_shape, have_product_shapes};
use crate::slices::are_both_elements;
use crate::{ScalarWords, status};
use field_slices::matrices::{
    ColumnCopy, copy_columns, invert_beside, multiply_into, solve_augmented,
};

/// Writes the product of `left`, of `rows` rows of `inner` words, and `right`, of `inner` rows of `columns` words.
pub fn multiply<S: ScalarWords>(
    field: S,
    left: &[S::Word],
    right: &[S::Word],
    product: &mut [S::Word],
    rows: u64,
    inner: u64,
    columns: u64,
) -> u32
    ensures { MultipliesMatrices (S.field field) rows inner columns left.now
        right.now product.old product.new result }
{
    let (rows, inner, columns) = (rows as usize, inner as usize, columns as usize);
    if !have_product_shapes(left.len(), right.len(), product.len(), rows, inner, columns) {
        return status::LENGTH;
    }
    if !are_both_elements(field, left, right) {
        return status::NOT_AN_ELEMENT;
    }
    multiply_into(
        LowBits { field },
        product,
        left,
        right,
        rows,
        inner,
        columns,
    );
    truncate_all(field, product);
    status::OK
}

/// Brings a matrix of `rows` rows of `columns` words to reduced row echelon form, and writes its rank. The first so many places of
/// `pivots`, which has a place for each row, become the columns of the leading entries, and the others stay.
pub fn row_reduce<S: ScalarWords>(
    field: S,
    matrix: &mut [S::Word],
    rows: u64,
    columns: u64,
    pivots: &mut [usize],
    rank: &mut usize,
) -> u32
    ensures { ReducesRows (S.field field) rows columns matrix.old pivots.old
        rank.old matrix.new pivots.new rank.new result }
{
    let (rows, columns) = (rows as usize, columns as usize);
    if !has_shape(matrix.len(), rows, columns) || pivots.len() != rows {
        return status::LENGTH;
    }
    if !field.are_elements(matrix) {
        return status::NOT_AN_ELEMENT;
    }
    *rank = field_slices::matrices::row_reduce(LowBits { field }, matrix, rows, columns, pivots);
    truncate_all(field, matrix);
    status::OK
}

/// Writes the rank of a matrix of `rows` rows of `columns` words, in as much space, and a place for each row. Nothing is said of what is
/// left in space and places, whatever the status.
pub fn rank<S: ScalarWords>(
    field: S,
    matrix: &[S::Word],
    rows: u64,
    columns: u64,
    space: &mut [S::Word],
    places: &mut [usize],
    rank: &mut usize,
) -> u32
    ensures { TakesRank (S.field field) rows columns matrix.now (length space.old)
        (length places.old) rank.old rank.new result }
{
    let (rows, columns) = (rows as usize, columns as usize);
    if !has_shape(matrix.len(), rows, columns)
        || space.len() != matrix.len()
        || places.len() != rows
    {
        return status::LENGTH;
    }
    if !field.are_elements(matrix) {
        return status::NOT_AN_ELEMENT;
    }
    space.copy_from_slice(matrix);
    *rank = field_slices::matrices::row_reduce(LowBits { field }, space, rows, columns, places);
    status::OK
}

/// Writes the determinant of a matrix of `size` rows of as many words, in as much space; of no rows it is 1. Nothing is said of what is
/// left in space, whatever the status.
pub fn determinant<S: ScalarWords>(
    field: S,
    matrix: &[S::Word],
    size: u64,
    space: &mut [S::Word],
    determinant: &mut S::Word,
) -> u32
    ensures { TakesDeterminant (S.field field) size matrix.now (length space.old)
        determinant.old determinant.new result }
{
    let size = size as usize;
    if !has_shape(matrix.len(), size, size) || space.len() != matrix.len() {
        return status::LENGTH;
    }
    if !field.are_elements(matrix) {
        return status::NOT_AN_ELEMENT;
    }
    space.copy_from_slice(matrix);
    let value = field_slices::matrices::determinant(LowBits { field }, space, size);
    *determinant = field.truncated(value);
    status::OK
}

/// Writes the inverse of a matrix of `size` rows of as many words, in space for two matrices, and a place for each row. Where there is
/// none, `inverse` stays. Nothing is said of what is left in space and places, whatever the status.
pub fn inverse<S: ScalarWords>(
    field: S,
    matrix: &[S::Word],
    size: u64,
    inverse: &mut [S::Word],
    space: &mut [S::Word],
    places: &mut [usize],
) -> u32
    ensures { InvertsMatrix (S.field field) size matrix.now (length space.old)
        (length places.old) inverse.old inverse.new result }
{
    let size = size as usize;
    if !has_shape(matrix.len(), size, size) || inverse.len() != matrix.len() {
        return status::LENGTH;
    }
    let width = size + size;
    if !has_shape(space.len(), size, width) || places.len() != size {
        return status::LENGTH;
    }
    if !field.are_elements(matrix) {
        return status::NOT_AN_ELEMENT;
    }
    let left_half = ColumnCopy {
        rows: size,
        columns: size,
        from: 0,
        target_columns: width,
        to: 0,
        count: size,
    };
    copy_columns(LowBits { field }, space, matrix, left_half);
    if !invert_beside(LowBits { field }, space, size, places) {
        return status::UNSOLVABLE;
    }
    let right_half = ColumnCopy {
        rows: size,
        columns: width,
        from: size,
        target_columns: size,
        to: 0,
        count: size,
    };
    copy_columns(LowBits { field }, inverse, space, right_half);
    truncate_all(field, inverse);
    status::OK
}

/// Writes a solution of linear equations: `matrix`, of `rows` rows of `columns` words, has the coefficients of an equation in each row,
/// and `right` the right sides. It works in a row of one word more for each equation, and a place for each row. Where there is no solution,
/// `solution` stays. Nothing is said of what is left in space and places, whatever the status.
pub fn solve<S: ScalarWords>(
    field: S,
    matrix: &[S::Word],
    rows: u64,
    columns: u64,
    right: &[S::Word],
    solution: &mut [S::Word],
    space: &mut [S::Word],
    places: &mut [usize],
) -> u32
    ensures { SolvesEquations (S.field field) rows columns matrix.now right.now
        (length space.old) (length places.old) solution.old solution.new result }
{
    let (rows, columns) = (rows as usize, columns as usize);
    if !have_lengths(
        rows,
        columns,
        matrix.len(),
        right.len(),
        solution.len(),
        space.len(),
        places.len(),
    ) {
        return status::LENGTH;
    }
    if !are_both_elements(field, matrix, right) {
        return status::NOT_AN_ELEMENT;
    }
    let width = columns + 1;
    let coefficients = ColumnCopy {
        rows,
        columns,
        from: 0,
        target_columns: width,
        to: 0,
        count: columns,
    };
    let right_sides = ColumnCopy {
        rows,
        columns: 1,
        from: 0,
        target_columns: width,
        to: columns,
        count: 1,
    };
    copy_columns(LowBits { field }, space, matrix, coefficients);
    copy_columns(LowBits { field }, space, right, right_sides);
    if !solve_augmented(LowBits { field }, space, rows, width, solution, places) {
        return status::UNSOLVABLE;
    }
    truncate_all(field, solution);
    status::OK
}

// Whether so many words and places are those of equations.
fn have_lengths(
    rows: usize,
    columns: usize,
    words: usize,
    right: usize,
    solution: usize,
    space: usize,
    places: usize,
) -> bool
    ensures { IsTrue result ↔ HaveEquationLengths rows columns words right solution space places }
{
    if right != rows || solution != columns || places != rows || columns >= 1 << 63 {
        return false;
    }
    has_shape(words, rows, columns) && has_shape(space, rows, columns + 1)
}
