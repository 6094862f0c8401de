// Calls over slices of elements of GF(2^16), a level of the tower.
// Written by scripts/make_c_exports.py; do not edit.
ghost use Rattle.std.specs.Prelude.{length};
ghost use Rattle.c_calls.specs.Calls.{Adds, AddsScaled, Evaluates, Inverts, Multiplies, MultipliesBy, NamesGenerator, RaisesTo};
ghost use Rattle.c_calls.specs.Calls.{Squares, TakesDotProduct, TakesProduct, TakesRoots};
ghost use Rattle.c_calls.specs.Fields.{level_field};
ghost use Rattle.c_calls.specs.Matrices.{InvertsMatrix, MultipliesMatrices, ReducesRows, SolvesEquations, TakesDeterminant, TakesRank};

use c_calls::operations::{Square, SquareRoot, Sum};
use c_calls::{Bits16, Tower, Words, in_place, slices};
use std::simd::prelude::*;

type T16 = Words<u16, u16, Tower<Bits16>, u64x2>;

/// The sum of the elements at each place.
#[unsafe(no_mangle)]
pub extern "C" fn bf_t16_add(left: &[u16], right: &[u16], sums: &mut [u16]) -> u32
    ensures { Adds (level_field 4) left.now right.now sums.old sums.new result }
{
    slices::write_each_of_two(T16::new(), left, right, sums, &Sum)
}

/// The product of the elements at each place.
#[unsafe(no_mangle)]
pub extern "C" fn bf_t16_multiply(left: &[u16], right: &[u16], products: &mut [u16]) -> u32
    ensures { Multiplies (level_field 4) left.now right.now products.old products.new result }
{
    c_calls::multiply(T16::new(), left, right, products)
}

/// The product of each element and the scalar.
#[unsafe(no_mangle)]
pub extern "C" fn bf_t16_multiply_by(values: &[u16], scalar: u16, products: &mut [u16]) -> u32
    ensures { MultipliesBy (level_field 4) scalar values.now products.old products.new result }
{
    c_calls::multiply_by(T16::new(), values, scalar, products)
}

/// Adds to each element of sums the scalar times the value at its place.
#[unsafe(no_mangle)]
pub extern "C" fn bf_t16_add_scaled(sums: &mut [u16], scalar: u16, values: &[u16]) -> u32
    ensures { AddsScaled (level_field 4) scalar values.now sums.old sums.new result }
{
    c_calls::add_scaled(T16::new(), sums, scalar, values)
}

/// The square of each element.
#[unsafe(no_mangle)]
pub extern "C" fn bf_t16_square(values: &[u16], squares: &mut [u16]) -> u32
    ensures { Squares (level_field 4) values.now squares.old squares.new result }
{
    slices::write_each(T16::new(), values, squares, &Square, true)
}

/// The inverse of each element, and 0 for 0.
#[unsafe(no_mangle)]
pub extern "C" fn bf_t16_inverse(values: &[u16], inverses: &mut [u16]) -> u32
    ensures { Inverts (level_field 4) values.now inverses.old inverses.new result }
{
    c_calls::invert(T16::new(), values, inverses)
}

/// The same as inverse.
#[unsafe(no_mangle)]
pub extern "C" fn bf_t16_batch_inverse(values: &[u16], inverses: &mut [u16]) -> u32
    ensures { Inverts (level_field 4) values.now inverses.old inverses.new result }
{
    c_calls::batch_invert(T16::new(), values, inverses)
}

/// The square root of each element.
#[unsafe(no_mangle)]
pub extern "C" fn bf_t16_square_root(values: &[u16], roots: &mut [u16]) -> u32
    ensures { TakesRoots (level_field 4) values.now roots.old roots.new result }
{
    slices::write_each(T16::new(), values, roots, &SquareRoot, true)
}

/// Each element to the power of the exponent; to the power 0 it is 1.
#[unsafe(no_mangle)]
pub extern "C" fn bf_t16_power(values: &[u16], exponent: u64, powers: &mut [u16]) -> u32
    ensures { RaisesTo (level_field 4) exponent values.now powers.old powers.new result }
{
    c_calls::raise(T16::new(), values, exponent, powers)
}

/// The product of all elements, 1 of none.
#[unsafe(no_mangle)]
pub extern "C" fn bf_t16_product(values: &[u16], product: &mut u16) -> u32
    ensures { TakesProduct (level_field 4) values.now product.old product.new result }
{
    slices::product(T16::new(), values, product)
}

/// The sum of the products at each place, 0 of none.
#[unsafe(no_mangle)]
pub extern "C" fn bf_t16_dot_product(left: &[u16], right: &[u16], sum: &mut u16) -> u32
    ensures { TakesDotProduct (level_field 4) left.now right.now sum.old sum.new result }
{
    c_calls::dot_product(T16::new(), left, right, sum)
}

/// The value at each point of the polynomial with these coefficients, the constant one first; any number of coefficients.
#[unsafe(no_mangle)]
pub extern "C" fn bf_t16_evaluate(coefficients: &[u16], points: &[u16], values: &mut [u16]) -> u32
    ensures { Evaluates (level_field 4) coefficients.now points.now values.old values.new result }
{
    c_calls::evaluate(T16::new(), coefficients, points, values)
}

/// Adds to each element of sums the value at its place.
#[unsafe(no_mangle)]
pub extern "C" fn bf_t16_add_in_place(sums: &mut [u16], values: &[u16]) -> u32
    ensures { Adds (level_field 4) sums.old values.now sums.old sums.new result }
{
    in_place::change_each_by(T16::new(), sums, values, &Sum)
}

/// Multiplies each element of products by the value at its place.
#[unsafe(no_mangle)]
pub extern "C" fn bf_t16_multiply_in_place(products: &mut [u16], values: &[u16]) -> u32
    ensures { Multiplies (level_field 4) products.old values.now products.old products.new result }
{
    c_calls::multiply_in_place(T16::new(), products, values)
}

/// Multiplies each element by the scalar.
#[unsafe(no_mangle)]
pub extern "C" fn bf_t16_multiply_by_in_place(values: &mut [u16], scalar: u16) -> u32
    ensures { MultipliesBy (level_field 4) scalar values.old values.old values.new result }
{
    c_calls::multiply_by_in_place(T16::new(), values, scalar)
}

/// Squares each element.
#[unsafe(no_mangle)]
pub extern "C" fn bf_t16_square_in_place(values: &mut [u16]) -> u32
    ensures { Squares (level_field 4) values.old values.old values.new result }
{
    in_place::change_each(T16::new(), values, &Square)
}

/// Leaves the inverse of each element, and 0 of 0.
#[unsafe(no_mangle)]
pub extern "C" fn bf_t16_inverse_in_place(values: &mut [u16]) -> u32
    ensures { Inverts (level_field 4) values.old values.old values.new result }
{
    c_calls::invert_in_place(T16::new(), values)
}

/// Leaves the square root of each element.
#[unsafe(no_mangle)]
pub extern "C" fn bf_t16_square_root_in_place(values: &mut [u16]) -> u32
    ensures { TakesRoots (level_field 4) values.old values.old values.new result }
{
    in_place::change_each(T16::new(), values, &SquareRoot)
}

/// Raises each element to the power of the exponent; to the power 0 it is 1.
#[unsafe(no_mangle)]
pub extern "C" fn bf_t16_power_in_place(values: &mut [u16], exponent: u64) -> u32
    ensures { RaisesTo (level_field 4) exponent values.old values.old values.new result }
{
    c_calls::raise_in_place(T16::new(), values, exponent)
}

/// The generator of the field's multiplicative group that the library names.
#[unsafe(no_mangle)]
pub extern "C" fn bf_t16_generator(generator: &mut u16) -> u32
    ensures { NamesGenerator (level_field 4) generator.new result }
{
    slices::generator::<u16, u16, Tower<Bits16>>(generator)
}

/// The product of left, of rows rows of inner elements, and right, of inner rows of columns elements.
#[unsafe(no_mangle)]
pub extern "C" fn bf_t16_matrix_multiply(
    left: &[u16],
    right: &[u16],
    product: &mut [u16],
    rows: u64,
    inner: u64,
    columns: u64,
) -> u32
    ensures { MultipliesMatrices (level_field 4) rows inner columns left.now right.now product.old product.new result }
{
    c_calls::matrices::multiply(T16::new(), left, right, product, rows, inner, columns)
}

/// Brings a matrix of rows rows of columns elements to reduced row echelon form; rank is its rank, the first rank of the rows places of
/// pivots become the columns of its leading entries, and the others stay.
#[unsafe(no_mangle)]
pub extern "C" fn bf_t16_matrix_row_reduce(
    matrix: &mut [u16],
    rows: u64,
    columns: u64,
    pivots: &mut [usize],
    rank: &mut usize,
) -> u32
    ensures { ReducesRows (level_field 4) rows columns matrix.old pivots.old rank.old matrix.new pivots.new rank.new result }
{
    c_calls::matrices::row_reduce(T16::new(), matrix, rows, columns, pivots, rank)
}

/// The rank of a matrix of rows rows of columns elements, in as much space and rows places, which may be written whatever the status.
#[unsafe(no_mangle)]
pub extern "C" fn bf_t16_matrix_rank(
    matrix: &[u16],
    rows: u64,
    columns: u64,
    space: &mut [u16],
    places: &mut [usize],
    rank: &mut usize,
) -> u32
    ensures { TakesRank (level_field 4) rows columns matrix.now (length space.old) (length places.old) rank.old rank.new result }
{
    c_calls::matrices::rank(T16::new(), matrix, rows, columns, space, places, rank)
}

/// The determinant of a matrix of size rows of size elements, in as much space, which may be written whatever the status; 1 of no rows.
#[unsafe(no_mangle)]
pub extern "C" fn bf_t16_matrix_determinant(
    matrix: &[u16],
    size: u64,
    space: &mut [u16],
    determinant: &mut u16,
) -> u32
    ensures { TakesDeterminant (level_field 4) size matrix.now (length space.old) determinant.old determinant.new result }
{
    c_calls::matrices::determinant(T16::new(), matrix, size, space, determinant)
}

/// The inverse of a matrix of size rows of size elements, in space for two of these and size places, which may be written whatever the
/// status.
#[unsafe(no_mangle)]
pub extern "C" fn bf_t16_matrix_inverse(
    matrix: &[u16],
    size: u64,
    inverse: &mut [u16],
    space: &mut [u16],
    places: &mut [usize],
) -> u32
    ensures { InvertsMatrix (level_field 4) size matrix.now (length space.old) (length places.old) inverse.old inverse.new result }
{
    c_calls::matrices::inverse(T16::new(), matrix, size, inverse, space, places)
}

/// A solution x of matrix * x = right, of rows equations in columns unknowns, in space for rows times columns + 1 elements and rows
/// places, which may be written whatever the status; an unknown that the others leave open is 0.
#[unsafe(no_mangle)]
pub extern "C" fn bf_t16_matrix_solve(
    matrix: &[u16],
    rows: u64,
    columns: u64,
    right: &[u16],
    solution: &mut [u16],
    space: &mut [u16],
    places: &mut [usize],
) -> u32
    ensures { SolvesEquations (level_field 4) rows columns matrix.now right.now (length space.old)
        (length places.old) solution.old solution.new result }
{
    c_calls::matrices::solve(
        T16::new(),
        matrix,
        rows,
        columns,
        right,
        solution,
        space,
        places,
    )
}
