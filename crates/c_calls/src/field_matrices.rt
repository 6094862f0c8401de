// Matrices of elements of a field that the caller chooses, row after row in a slice: what `matrices` does over any field, once the words of
// the caller are known to name one.
#![tactic(auto, using(crate::proofs::ChosenCalls::over_named, crate::proofs::ChosenCalls::over_none))]

ghost use Rattle.std.specs.Prelude.{length};
ghost use Rattle.c_calls.specs.ChosenFields.{OverField, ReducesRowsOver, chosen_field};
ghost use Rattle.c_calls.specs.Matrices.{InvertsMatrix, MultipliesMatrices, SolvesEquations, TakesDeterminant, TakesRank};

use crate::chosen_words::{ChosenWords, field_of_words};
use crate::field_words::ChosenField;
use crate::wide::Wide;
use crate::{matrices, status};

/// Writes the product of `left`, of `rows` rows of `inner` elements, and `right`, of `inner` rows of `columns` elements.
pub fn multiply(
    named: ChosenField,
    left: &[Wide],
    right: &[Wide],
    product: &mut [Wide],
    rows: u64,
    inner: u64,
    columns: u64,
) -> u32
    ensures { OverField named (MultipliesMatrices (chosen_field named) rows inner columns left.now right.now product.old product.new result)
        product.old product.new result }
{
    match field_of_words(named) {
        None => status::REDUCIBLE,
        Some(field) => matrices::multiply(
            ChosenWords { named, field },
            left,
            right,
            product,
            rows,
            inner,
            columns,
        ),
    }
}

/// Brings a matrix of `rows` rows of `columns` elements to reduced row echelon form, and writes its rank, as `matrices::row_reduce` does.
pub fn row_reduce(
    named: ChosenField,
    matrix: &mut [Wide],
    rows: u64,
    columns: u64,
    pivots: &mut [usize],
    rank: &mut usize,
) -> u32
    ensures { ReducesRowsOver named rows columns matrix.old pivots.old rank.old matrix.new pivots.new rank.new result }
{
    match field_of_words(named) {
        None => status::REDUCIBLE,
        Some(field) => matrices::row_reduce(
            ChosenWords { named, field },
            matrix,
            rows,
            columns,
            pivots,
            rank,
        ),
    }
}

/// Writes the rank of a matrix of `rows` rows of `columns` elements, in the space of `matrices::rank`.
pub fn rank(
    named: ChosenField,
    matrix: &[Wide],
    rows: u64,
    columns: u64,
    space: &mut [Wide],
    places: &mut [usize],
    rank: &mut usize,
) -> u32
    ensures { OverField named (TakesRank (chosen_field named) rows columns matrix.now (length space.old) (length places.old) rank.old
        rank.new result) rank.old rank.new result }
{
    match field_of_words(named) {
        None => status::REDUCIBLE,
        Some(field) => matrices::rank(
            ChosenWords { named, field },
            matrix,
            rows,
            columns,
            space,
            places,
            rank,
        ),
    }
}

/// Writes the determinant of a matrix of `size` rows of as many elements, in the space of `matrices::determinant`; of no rows it is 1.
pub fn determinant(
    named: ChosenField,
    matrix: &[Wide],
    size: u64,
    space: &mut [Wide],
    determinant: &mut Wide,
) -> u32
    ensures { OverField named (TakesDeterminant (chosen_field named) size matrix.now (length space.old) determinant.old determinant.new
        result) determinant.old determinant.new result }
{
    match field_of_words(named) {
        None => status::REDUCIBLE,
        Some(field) => matrices::determinant(
            ChosenWords { named, field },
            matrix,
            size,
            space,
            determinant,
        ),
    }
}

/// Writes the inverse of a matrix of `size` rows of as many elements, in the space of `matrices::inverse`; `UNSOLVABLE` where it has
/// none.
pub fn inverse(
    named: ChosenField,
    matrix: &[Wide],
    size: u64,
    inverse: &mut [Wide],
    space: &mut [Wide],
    places: &mut [usize],
) -> u32
    ensures { OverField named (InvertsMatrix (chosen_field named) size matrix.now (length space.old) (length places.old) inverse.old
        inverse.new result) inverse.old inverse.new result }
{
    match field_of_words(named) {
        None => status::REDUCIBLE,
        Some(field) => matrices::inverse(
            ChosenWords { named, field },
            matrix,
            size,
            inverse,
            space,
            places,
        ),
    }
}

/// Writes a solution of linear equations, in the space of `matrices::solve`; `UNSOLVABLE` where there is none.
pub fn solve(
    named: ChosenField,
    matrix: &[Wide],
    rows: u64,
    columns: u64,
    right: &[Wide],
    solution: &mut [Wide],
    space: &mut [Wide],
    places: &mut [usize],
) -> u32
    ensures { OverField named (SolvesEquations (chosen_field named) rows columns matrix.now right.now (length space.old) (length places.old)
        solution.old solution.new result) solution.old solution.new result }
{
    match field_of_words(named) {
        None => status::REDUCIBLE,
        Some(field) => matrices::solve(
            ChosenWords { named, field },
            matrix,
            rows,
            columns,
            right,
            solution,
            space,
            places,
        ),
    }
}
