// Calls over slices of elements of GF(2^128), a level of the tower.
// Written by scripts/make_c_exports.py; do not edit.
ghost use Rattle.std.specs.Prelude.{length};
ghost use Rattle.c_calls.specs.Calls.{Adds, AddsScaled, Evaluates, Inverts, Multiplies, MultipliesBy, NamesGenerator, RaisesTo};
ghost use Rattle.c_calls.specs.Calls.{Squares, TakesDotProduct, TakesProduct, TakesRoots};
ghost use Rattle.c_calls.specs.Fields.{wide_level_field};
ghost use Rattle.c_calls.specs.Matrices.{InvertsMatrix, MultipliesMatrices, ReducesRows, SolvesEquations, TakesDeterminant, TakesRank};

use c_calls::operations::{Square, SquareRoot, Sum};
use c_calls::{Bits128, Tower, Wide, Words, in_place, slices};
use std::simd::prelude::*;

type T128 = Words<u128, Wide, Tower<Bits128>, u64x2>;

/// The sum of the elements at each place.
#[unsafe(no_mangle)]
pub extern "C" fn bf_t128_add(left: &[Wide], right: &[Wide], sums: &mut [Wide]) -> u32
    ensures { Adds wide_level_field left.now right.now sums.old sums.new result }
{
    slices::write_each_of_two(T128::new(), left, right, sums, &Sum)
}

/// The product of the elements at each place.
#[unsafe(no_mangle)]
pub extern "C" fn bf_t128_multiply(left: &[Wide], right: &[Wide], products: &mut [Wide]) -> u32
    ensures { Multiplies wide_level_field left.now right.now products.old products.new result }
{
    c_calls::multiply(T128::new(), left, right, products)
}

/// The product of each element and the scalar.
#[unsafe(no_mangle)]
pub extern "C" fn bf_t128_multiply_by(values: &[Wide], scalar: &Wide, products: &mut [Wide]) -> u32
    ensures { MultipliesBy wide_level_field scalar.now values.now products.old products.new result }
{
    c_calls::multiply_by(T128::new(), values, *scalar, products)
}

/// Adds to each element of sums the scalar times the value at its place.
#[unsafe(no_mangle)]
pub extern "C" fn bf_t128_add_scaled(sums: &mut [Wide], scalar: &Wide, values: &[Wide]) -> u32
    ensures { AddsScaled wide_level_field scalar.now values.now sums.old sums.new result }
{
    c_calls::add_scaled(T128::new(), sums, *scalar, values)
}

/// The square of each element.
#[unsafe(no_mangle)]
pub extern "C" fn bf_t128_square(values: &[Wide], squares: &mut [Wide]) -> u32
    ensures { Squares wide_level_field values.now squares.old squares.new result }
{
    slices::write_each(T128::new(), values, squares, &Square, false)
}

/// The inverse of each element, and 0 for 0.
#[unsafe(no_mangle)]
pub extern "C" fn bf_t128_inverse(values: &[Wide], inverses: &mut [Wide]) -> u32
    ensures { Inverts wide_level_field values.now inverses.old inverses.new result }
{
    c_calls::invert(T128::new(), values, inverses)
}

/// The same as inverse.
#[unsafe(no_mangle)]
pub extern "C" fn bf_t128_batch_inverse(values: &[Wide], inverses: &mut [Wide]) -> u32
    ensures { Inverts wide_level_field values.now inverses.old inverses.new result }
{
    c_calls::batch_invert(T128::new(), values, inverses)
}

/// The square root of each element.
#[unsafe(no_mangle)]
pub extern "C" fn bf_t128_square_root(values: &[Wide], roots: &mut [Wide]) -> u32
    ensures { TakesRoots wide_level_field values.now roots.old roots.new result }
{
    slices::write_each(T128::new(), values, roots, &SquareRoot, false)
}

/// Each element to the power of the exponent; to the power 0 it is 1.
#[unsafe(no_mangle)]
pub extern "C" fn bf_t128_power(values: &[Wide], exponent: u64, powers: &mut [Wide]) -> u32
    ensures { RaisesTo wide_level_field exponent values.now powers.old powers.new result }
{
    c_calls::raise(T128::new(), values, exponent, powers)
}

/// The product of all elements, 1 of none.
#[unsafe(no_mangle)]
pub extern "C" fn bf_t128_product(values: &[Wide], product: &mut Wide) -> u32
    ensures { TakesProduct wide_level_field values.now product.old product.new result }
{
    slices::product(T128::new(), values, product)
}

/// The sum of the products at each place, 0 of none.
#[unsafe(no_mangle)]
pub extern "C" fn bf_t128_dot_product(left: &[Wide], right: &[Wide], sum: &mut Wide) -> u32
    ensures { TakesDotProduct wide_level_field left.now right.now sum.old sum.new result }
{
    c_calls::dot_product(T128::new(), left, right, sum)
}

/// The value at each point of the polynomial with these coefficients, the constant one first; any number of coefficients.
#[unsafe(no_mangle)]
pub extern "C" fn bf_t128_evaluate(
    coefficients: &[Wide],
    points: &[Wide],
    values: &mut [Wide],
) -> u32
    ensures { Evaluates wide_level_field coefficients.now points.now values.old values.new result }
{
    c_calls::evaluate(T128::new(), coefficients, points, values)
}

/// Adds to each element of sums the value at its place.
#[unsafe(no_mangle)]
pub extern "C" fn bf_t128_add_in_place(sums: &mut [Wide], values: &[Wide]) -> u32
    ensures { Adds wide_level_field sums.old values.now sums.old sums.new result }
{
    in_place::change_each_by(T128::new(), sums, values, &Sum)
}

/// Multiplies each element of products by the value at its place.
#[unsafe(no_mangle)]
pub extern "C" fn bf_t128_multiply_in_place(products: &mut [Wide], values: &[Wide]) -> u32
    ensures { Multiplies wide_level_field products.old values.now products.old products.new result }
{
    c_calls::multiply_in_place(T128::new(), products, values)
}

/// Multiplies each element by the scalar.
#[unsafe(no_mangle)]
pub extern "C" fn bf_t128_multiply_by_in_place(values: &mut [Wide], scalar: &Wide) -> u32
    ensures { MultipliesBy wide_level_field scalar.now values.old values.old values.new result }
{
    c_calls::multiply_by_in_place(T128::new(), values, *scalar)
}

/// Squares each element.
#[unsafe(no_mangle)]
pub extern "C" fn bf_t128_square_in_place(values: &mut [Wide]) -> u32
    ensures { Squares wide_level_field values.old values.old values.new result }
{
    in_place::change_each(T128::new(), values, &Square)
}

/// Leaves the inverse of each element, and 0 of 0.
#[unsafe(no_mangle)]
pub extern "C" fn bf_t128_inverse_in_place(values: &mut [Wide]) -> u32
    ensures { Inverts wide_level_field values.old values.old values.new result }
{
    c_calls::invert_in_place(T128::new(), values)
}

/// Leaves the square root of each element.
#[unsafe(no_mangle)]
pub extern "C" fn bf_t128_square_root_in_place(values: &mut [Wide]) -> u32
    ensures { TakesRoots wide_level_field values.old values.old values.new result }
{
    in_place::change_each(T128::new(), values, &SquareRoot)
}

/// Raises each element to the power of the exponent; to the power 0 it is 1.
#[unsafe(no_mangle)]
pub extern "C" fn bf_t128_power_in_place(values: &mut [Wide], exponent: u64) -> u32
    ensures { RaisesTo wide_level_field exponent values.old values.old values.new result }
{
    c_calls::raise_in_place(T128::new(), values, exponent)
}

/// The generator of the field's multiplicative group that the library names.
#[unsafe(no_mangle)]
pub extern "C" fn bf_t128_generator(generator: &mut Wide) -> u32
    ensures { NamesGenerator wide_level_field generator.new result }
{
    slices::generator::<u128, Wide, Tower<Bits128>>(generator)
}

/// The product of left, of rows rows of inner elements, and right, of inner rows of columns elements.
#[unsafe(no_mangle)]
pub extern "C" fn bf_t128_matrix_multiply(
    left: &[Wide],
    right: &[Wide],
    product: &mut [Wide],
    rows: u64,
    inner: u64,
    columns: u64,
) -> u32
    ensures { MultipliesMatrices wide_level_field rows inner columns left.now right.now product.old product.new result }
{
    c_calls::matrices::multiply(T128::new(), left, right, product, rows, inner, columns)
}

/// Brings a matrix of rows rows of columns elements to reduced row echelon form; rank is its rank, the first rank of the rows places of
/// pivots become the columns of its leading entries, and the others stay.
#[unsafe(no_mangle)]
pub extern "C" fn bf_t128_matrix_row_reduce(
    matrix: &mut [Wide],
    rows: u64,
    columns: u64,
    pivots: &mut [usize],
    rank: &mut usize,
) -> u32
    ensures { ReducesRows wide_level_field rows columns matrix.old pivots.old rank.old matrix.new pivots.new rank.new result }
{
    c_calls::matrices::row_reduce(T128::new(), matrix, rows, columns, pivots, rank)
}

/// The rank of a matrix of rows rows of columns elements, in as much space and rows places, which may be written whatever the status.
#[unsafe(no_mangle)]
pub extern "C" fn bf_t128_matrix_rank(
    matrix: &[Wide],
    rows: u64,
    columns: u64,
    space: &mut [Wide],
    places: &mut [usize],
    rank: &mut usize,
) -> u32
    ensures { TakesRank wide_level_field rows columns matrix.now (length space.old) (length places.old) rank.old rank.new result }
{
    c_calls::matrices::rank(T128::new(), matrix, rows, columns, space, places, rank)
}

/// The determinant of a matrix of size rows of size elements, in as much space, which may be written whatever the status; 1 of no rows.
#[unsafe(no_mangle)]
pub extern "C" fn bf_t128_matrix_determinant(
    matrix: &[Wide],
    size: u64,
    space: &mut [Wide],
    determinant: &mut Wide,
) -> u32
    ensures { TakesDeterminant wide_level_field size matrix.now (length space.old) determinant.old determinant.new result }
{
    c_calls::matrices::determinant(T128::new(), matrix, size, space, determinant)
}

/// The inverse of a matrix of size rows of size elements, in space for two of these and size places, which may be written whatever the
/// status.
#[unsafe(no_mangle)]
pub extern "C" fn bf_t128_matrix_inverse(
    matrix: &[Wide],
    size: u64,
    inverse: &mut [Wide],
    space: &mut [Wide],
    places: &mut [usize],
) -> u32
    ensures { InvertsMatrix wide_level_field size matrix.now (length space.old) (length places.old) inverse.old inverse.new result }
{
    c_calls::matrices::inverse(T128::new(), matrix, size, inverse, space, places)
}

/// A solution x of matrix * x = right, of rows equations in columns unknowns, in space for rows times columns + 1 elements and rows
/// places, which may be written whatever the status; an unknown that the others leave open is 0.
#[unsafe(no_mangle)]
pub extern "C" fn bf_t128_matrix_solve(
    matrix: &[Wide],
    rows: u64,
    columns: u64,
    right: &[Wide],
    solution: &mut [Wide],
    space: &mut [Wide],
    places: &mut [usize],
) -> u32
    ensures { SolvesEquations wide_level_field rows columns matrix.now right.now (length space.old)
        (length places.old) solution.old solution.new result }
{
    c_calls::matrices::solve(
        T128::new(),
        matrix,
        rows,
        columns,
        right,
        solution,
        space,
        places,
    )
}
