// Calls over slices of elements of GF(2^4), a level of the tower.
// Written by scripts/make_c_exports.py; do not edit.
ghost use Rattle.std.specs.Prelude.{length};
ghost use Rattle.c_calls.specs.Calls.{Adds, AddsScaled, Evaluates, Inverts, Multiplies, MultipliesBy, NamesGenerator, RaisesTo};
ghost use Rattle.c_calls.specs.Calls.{Squares, TakesDotProduct, TakesProduct, TakesRoots};
ghost use Rattle.c_calls.specs.Fields.{level_field};
ghost use Rattle.c_calls.specs.Matrices.{InvertsMatrix, MultipliesMatrices, ReducesRows, SolvesEquations, TakesDeterminant, TakesRank};

use c_calls::operations::{Square, SquareRoot, Sum};
use c_calls::{Bits4, Tower, Words, in_place, slices};
use std::simd::prelude::*;

type T4 = Words<u8, u8, Tower<Bits4>, u64x2>;

/// The sum of the elements at each place.
#[unsafe(no_mangle)]
pub extern "C" fn bf_t4_add(left: &[u8], right: &[u8], sums: &mut [u8]) -> u32
    ensures { Adds (level_field 2) left.now right.now sums.old sums.new result }
{
    slices::write_each_of_two(T4::new(), left, right, sums, &Sum)
}

/// The product of the elements at each place.
#[unsafe(no_mangle)]
pub extern "C" fn bf_t4_multiply(left: &[u8], right: &[u8], products: &mut [u8]) -> u32
    ensures { Multiplies (level_field 2) left.now right.now products.old products.new result }
{
    c_calls::multiply(T4::new(), left, right, products)
}

/// The product of each element and the scalar.
#[unsafe(no_mangle)]
pub extern "C" fn bf_t4_multiply_by(values: &[u8], scalar: u8, products: &mut [u8]) -> u32
    ensures { MultipliesBy (level_field 2) scalar values.now products.old products.new result }
{
    c_calls::multiply_by(T4::new(), values, scalar, products)
}

/// Adds to each element of sums the scalar times the value at its place.
#[unsafe(no_mangle)]
pub extern "C" fn bf_t4_add_scaled(sums: &mut [u8], scalar: u8, values: &[u8]) -> u32
    ensures { AddsScaled (level_field 2) scalar values.now sums.old sums.new result }
{
    c_calls::add_scaled(T4::new(), sums, scalar, values)
}

/// The square of each element.
#[unsafe(no_mangle)]
pub extern "C" fn bf_t4_square(values: &[u8], squares: &mut [u8]) -> u32
    ensures { Squares (level_field 2) values.now squares.old squares.new result }
{
    slices::write_each(T4::new(), values, squares, &Square, false)
}

/// The inverse of each element, and 0 for 0.
#[unsafe(no_mangle)]
pub extern "C" fn bf_t4_inverse(values: &[u8], inverses: &mut [u8]) -> u32
    ensures { Inverts (level_field 2) values.now inverses.old inverses.new result }
{
    c_calls::invert(T4::new(), values, inverses)
}

/// The same as inverse.
#[unsafe(no_mangle)]
pub extern "C" fn bf_t4_batch_inverse(values: &[u8], inverses: &mut [u8]) -> u32
    ensures { Inverts (level_field 2) values.now inverses.old inverses.new result }
{
    c_calls::batch_invert(T4::new(), values, inverses)
}

/// The square root of each element.
#[unsafe(no_mangle)]
pub extern "C" fn bf_t4_square_root(values: &[u8], roots: &mut [u8]) -> u32
    ensures { TakesRoots (level_field 2) values.now roots.old roots.new result }
{
    slices::write_each(T4::new(), values, roots, &SquareRoot, false)
}

/// Each element to the power of the exponent; to the power 0 it is 1.
#[unsafe(no_mangle)]
pub extern "C" fn bf_t4_power(values: &[u8], exponent: u64, powers: &mut [u8]) -> u32
    ensures { RaisesTo (level_field 2) exponent values.now powers.old powers.new result }
{
    c_calls::raise(T4::new(), values, exponent, powers)
}

/// The product of all elements, 1 of none.
#[unsafe(no_mangle)]
pub extern "C" fn bf_t4_product(values: &[u8], product: &mut u8) -> u32
    ensures { TakesProduct (level_field 2) values.now product.old product.new result }
{
    slices::product(T4::new(), values, product)
}

/// The sum of the products at each place, 0 of none.
#[unsafe(no_mangle)]
pub extern "C" fn bf_t4_dot_product(left: &[u8], right: &[u8], sum: &mut u8) -> u32
    ensures { TakesDotProduct (level_field 2) left.now right.now sum.old sum.new result }
{
    c_calls::dot_product(T4::new(), left, right, sum)
}

/// The value at each point of the polynomial with these coefficients, the constant one first; any number of coefficients.
#[unsafe(no_mangle)]
pub extern "C" fn bf_t4_evaluate(coefficients: &[u8], points: &[u8], values: &mut [u8]) -> u32
    ensures { Evaluates (level_field 2) coefficients.now points.now values.old values.new result }
{
    c_calls::evaluate(T4::new(), coefficients, points, values)
}

/// Adds to each element of sums the value at its place.
#[unsafe(no_mangle)]
pub extern "C" fn bf_t4_add_in_place(sums: &mut [u8], values: &[u8]) -> u32
    ensures { Adds (level_field 2) sums.old values.now sums.old sums.new result }
{
    in_place::change_each_by(T4::new(), sums, values, &Sum)
}

/// Multiplies each element of products by the value at its place.
#[unsafe(no_mangle)]
pub extern "C" fn bf_t4_multiply_in_place(products: &mut [u8], values: &[u8]) -> u32
    ensures { Multiplies (level_field 2) products.old values.now products.old products.new result }
{
    c_calls::multiply_in_place(T4::new(), products, values)
}

/// Multiplies each element by the scalar.
#[unsafe(no_mangle)]
pub extern "C" fn bf_t4_multiply_by_in_place(values: &mut [u8], scalar: u8) -> u32
    ensures { MultipliesBy (level_field 2) scalar values.old values.old values.new result }
{
    c_calls::multiply_by_in_place(T4::new(), values, scalar)
}

/// Squares each element.
#[unsafe(no_mangle)]
pub extern "C" fn bf_t4_square_in_place(values: &mut [u8]) -> u32
    ensures { Squares (level_field 2) values.old values.old values.new result }
{
    in_place::change_each(T4::new(), values, &Square)
}

/// Leaves the inverse of each element, and 0 of 0.
#[unsafe(no_mangle)]
pub extern "C" fn bf_t4_inverse_in_place(values: &mut [u8]) -> u32
    ensures { Inverts (level_field 2) values.old values.old values.new result }
{
    c_calls::invert_in_place(T4::new(), values)
}

/// Leaves the square root of each element.
#[unsafe(no_mangle)]
pub extern "C" fn bf_t4_square_root_in_place(values: &mut [u8]) -> u32
    ensures { TakesRoots (level_field 2) values.old values.old values.new result }
{
    in_place::change_each(T4::new(), values, &SquareRoot)
}

/// Raises each element to the power of the exponent; to the power 0 it is 1.
#[unsafe(no_mangle)]
pub extern "C" fn bf_t4_power_in_place(values: &mut [u8], exponent: u64) -> u32
    ensures { RaisesTo (level_field 2) exponent values.old values.old values.new result }
{
    c_calls::raise_in_place(T4::new(), values, exponent)
}

/// The generator of the field's multiplicative group that the library names.
#[unsafe(no_mangle)]
pub extern "C" fn bf_t4_generator(generator: &mut u8) -> u32
    ensures { NamesGenerator (level_field 2) generator.new result }
{
    slices::generator::<u8, u8, Tower<Bits4>>(generator)
}

/// The product of left, of rows rows of inner elements, and right, of inner rows of columns elements.
#[unsafe(no_mangle)]
pub extern "C" fn bf_t4_matrix_multiply(
    left: &[u8],
    right: &[u8],
    product: &mut [u8],
    rows: u64,
    inner: u64,
    columns: u64,
) -> u32
    ensures { MultipliesMatrices (level_field 2) rows inner columns left.now right.now product.old product.new result }
{
    c_calls::matrices::multiply(T4::new(), left, right, product, rows, inner, columns)
}

/// Brings a matrix of rows rows of columns elements to reduced row echelon form; rank is its rank, the first rank of the rows places of
/// pivots become the columns of its leading entries, and the others stay.
#[unsafe(no_mangle)]
pub extern "C" fn bf_t4_matrix_row_reduce(
    matrix: &mut [u8],
    rows: u64,
    columns: u64,
    pivots: &mut [usize],
    rank: &mut usize,
) -> u32
    ensures { ReducesRows (level_field 2) rows columns matrix.old pivots.old rank.old matrix.new pivots.new rank.new result }
{
    c_calls::matrices::row_reduce(T4::new(), matrix, rows, columns, pivots, rank)
}

/// The rank of a matrix of rows rows of columns elements, in as much space and rows places, which may be written whatever the status.
#[unsafe(no_mangle)]
pub extern "C" fn bf_t4_matrix_rank(
    matrix: &[u8],
    rows: u64,
    columns: u64,
    space: &mut [u8],
    places: &mut [usize],
    rank: &mut usize,
) -> u32
    ensures { TakesRank (level_field 2) rows columns matrix.now (length space.old) (length places.old) rank.old rank.new result }
{
    c_calls::matrices::rank(T4::new(), matrix, rows, columns, space, places, rank)
}

/// The determinant of a matrix of size rows of size elements, in as much space, which may be written whatever the status; 1 of no rows.
#[unsafe(no_mangle)]
pub extern "C" fn bf_t4_matrix_determinant(
    matrix: &[u8],
    size: u64,
    space: &mut [u8],
    determinant: &mut u8,
) -> u32
    ensures { TakesDeterminant (level_field 2) size matrix.now (length space.old) determinant.old determinant.new result }
{
    c_calls::matrices::determinant(T4::new(), matrix, size, space, determinant)
}

/// The inverse of a matrix of size rows of size elements, in space for two of these and size places, which may be written whatever the
/// status.
#[unsafe(no_mangle)]
pub extern "C" fn bf_t4_matrix_inverse(
    matrix: &[u8],
    size: u64,
    inverse: &mut [u8],
    space: &mut [u8],
    places: &mut [usize],
) -> u32
    ensures { InvertsMatrix (level_field 2) size matrix.now (length space.old) (length places.old) inverse.old inverse.new result }
{
    c_calls::matrices::inverse(T4::new(), matrix, size, inverse, space, places)
}

/// A solution x of matrix * x = right, of rows equations in columns unknowns, in space for rows times columns + 1 elements and rows
/// places, which may be written whatever the status; an unknown that the others leave open is 0.
#[unsafe(no_mangle)]
pub extern "C" fn bf_t4_matrix_solve(
    matrix: &[u8],
    rows: u64,
    columns: u64,
    right: &[u8],
    solution: &mut [u8],
    space: &mut [u8],
    places: &mut [usize],
) -> u32
    ensures { SolvesEquations (level_field 2) rows columns matrix.now right.now (length space.old)
        (length places.old) solution.old solution.new result }
{
    c_calls::matrices::solve(
        T4::new(),
        matrix,
        rows,
        columns,
        right,
        solution,
        space,
        places,
    )
}
