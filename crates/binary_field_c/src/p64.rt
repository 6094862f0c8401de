// Calls over slices of elements of GF(2)[x] modulo x^64 + x^4 + x^3 + x + 1.
// Written by scripts/make_c_exports.py; do not edit.
ghost use Rattle.std.specs.Prelude.{length};
ghost use Rattle.c_calls.specs.Calls.{Adds, AddsScaled, Evaluates, Inverts, Multiplies, MultipliesBy, NamesGenerator, RaisesTo};
ghost use Rattle.c_calls.specs.Calls.{Squares, TakesDotProduct, TakesProduct, TakesRoots};
ghost use Rattle.c_calls.specs.Fields.{poly64_field};
ghost use Rattle.c_calls.specs.Matrices.{InvertsMatrix, MultipliesMatrices, ReducesRows, SolvesEquations, TakesDeterminant, TakesRank};

use c_calls::operations::{Square, SquareRoot, Sum};
use c_calls::{Poly64Kernel, Words, in_place, slices};
use std::simd::prelude::*;

type P64 = Words<u64, u64, Poly64Kernel, u64x2>;

/// The sum of the elements at each place.
#[unsafe(no_mangle)]
pub extern "C" fn bf_p64_add(left: &[u64], right: &[u64], sums: &mut [u64]) -> u32
    ensures { Adds poly64_field left.now right.now sums.old sums.new result }
{
    slices::write_each_of_two(P64::new(), left, right, sums, &Sum)
}

/// The product of the elements at each place.
#[unsafe(no_mangle)]
pub extern "C" fn bf_p64_multiply(left: &[u64], right: &[u64], products: &mut [u64]) -> u32
    ensures { Multiplies poly64_field left.now right.now products.old products.new result }
{
    c_calls::multiply(P64::new(), left, right, products)
}

/// The product of each element and the scalar.
#[unsafe(no_mangle)]
pub extern "C" fn bf_p64_multiply_by(values: &[u64], scalar: u64, products: &mut [u64]) -> u32
    ensures { MultipliesBy poly64_field scalar values.now products.old products.new result }
{
    c_calls::multiply_by(P64::new(), values, scalar, products)
}

/// Adds to each element of sums the scalar times the value at its place.
#[unsafe(no_mangle)]
pub extern "C" fn bf_p64_add_scaled(sums: &mut [u64], scalar: u64, values: &[u64]) -> u32
    ensures { AddsScaled poly64_field scalar values.now sums.old sums.new result }
{
    c_calls::add_scaled(P64::new(), sums, scalar, values)
}

/// The square of each element.
#[unsafe(no_mangle)]
pub extern "C" fn bf_p64_square(values: &[u64], squares: &mut [u64]) -> u32
    ensures { Squares poly64_field values.now squares.old squares.new result }
{
    slices::write_each(P64::new(), values, squares, &Square, false)
}

/// The inverse of each element, and 0 for 0.
#[unsafe(no_mangle)]
pub extern "C" fn bf_p64_inverse(values: &[u64], inverses: &mut [u64]) -> u32
    ensures { Inverts poly64_field values.now inverses.old inverses.new result }
{
    c_calls::invert(P64::new(), values, inverses)
}

/// The same as inverse.
#[unsafe(no_mangle)]
pub extern "C" fn bf_p64_batch_inverse(values: &[u64], inverses: &mut [u64]) -> u32
    ensures { Inverts poly64_field values.now inverses.old inverses.new result }
{
    c_calls::batch_invert(P64::new(), values, inverses)
}

/// The square root of each element.
#[unsafe(no_mangle)]
pub extern "C" fn bf_p64_square_root(values: &[u64], roots: &mut [u64]) -> u32
    ensures { TakesRoots poly64_field values.now roots.old roots.new result }
{
    slices::write_each(P64::new(), values, roots, &SquareRoot, false)
}

/// Each element to the power of the exponent; to the power 0 it is 1.
#[unsafe(no_mangle)]
pub extern "C" fn bf_p64_power(values: &[u64], exponent: u64, powers: &mut [u64]) -> u32
    ensures { RaisesTo poly64_field exponent values.now powers.old powers.new result }
{
    c_calls::raise(P64::new(), values, exponent, powers)
}

/// The product of all elements, 1 of none.
#[unsafe(no_mangle)]
pub extern "C" fn bf_p64_product(values: &[u64], product: &mut u64) -> u32
    ensures { TakesProduct poly64_field values.now product.old product.new result }
{
    slices::product(P64::new(), values, product)
}

/// The sum of the products at each place, 0 of none.
#[unsafe(no_mangle)]
pub extern "C" fn bf_p64_dot_product(left: &[u64], right: &[u64], sum: &mut u64) -> u32
    ensures { TakesDotProduct poly64_field left.now right.now sum.old sum.new result }
{
    c_calls::dot_product(P64::new(), left, right, sum)
}

/// The value at each point of the polynomial with these coefficients, the constant one first; any number of coefficients.
#[unsafe(no_mangle)]
pub extern "C" fn bf_p64_evaluate(coefficients: &[u64], points: &[u64], values: &mut [u64]) -> u32
    ensures { Evaluates poly64_field coefficients.now points.now values.old values.new result }
{
    c_calls::evaluate(P64::new(), coefficients, points, values)
}

/// Adds to each element of sums the value at its place.
#[unsafe(no_mangle)]
pub extern "C" fn bf_p64_add_in_place(sums: &mut [u64], values: &[u64]) -> u32
    ensures { Adds poly64_field sums.old values.now sums.old sums.new result }
{
    in_place::change_each_by(P64::new(), sums, values, &Sum)
}

/// Multiplies each element of products by the value at its place.
#[unsafe(no_mangle)]
pub extern "C" fn bf_p64_multiply_in_place(products: &mut [u64], values: &[u64]) -> u32
    ensures { Multiplies poly64_field products.old values.now products.old products.new result }
{
    c_calls::multiply_in_place(P64::new(), products, values)
}

/// Multiplies each element by the scalar.
#[unsafe(no_mangle)]
pub extern "C" fn bf_p64_multiply_by_in_place(values: &mut [u64], scalar: u64) -> u32
    ensures { MultipliesBy poly64_field scalar values.old values.old values.new result }
{
    c_calls::multiply_by_in_place(P64::new(), values, scalar)
}

/// Squares each element.
#[unsafe(no_mangle)]
pub extern "C" fn bf_p64_square_in_place(values: &mut [u64]) -> u32
    ensures { Squares poly64_field values.old values.old values.new result }
{
    in_place::change_each(P64::new(), values, &Square)
}

/// Leaves the inverse of each element, and 0 of 0.
#[unsafe(no_mangle)]
pub extern "C" fn bf_p64_inverse_in_place(values: &mut [u64]) -> u32
    ensures { Inverts poly64_field values.old values.old values.new result }
{
    c_calls::invert_in_place(P64::new(), values)
}

/// Leaves the square root of each element.
#[unsafe(no_mangle)]
pub extern "C" fn bf_p64_square_root_in_place(values: &mut [u64]) -> u32
    ensures { TakesRoots poly64_field values.old values.old values.new result }
{
    in_place::change_each(P64::new(), values, &SquareRoot)
}

/// Raises each element to the power of the exponent; to the power 0 it is 1.
#[unsafe(no_mangle)]
pub extern "C" fn bf_p64_power_in_place(values: &mut [u64], exponent: u64) -> u32
    ensures { RaisesTo poly64_field exponent values.old values.old values.new result }
{
    c_calls::raise_in_place(P64::new(), values, exponent)
}

/// The generator of the field's multiplicative group that the library names.
#[unsafe(no_mangle)]
pub extern "C" fn bf_p64_generator(generator: &mut u64) -> u32
    ensures { NamesGenerator poly64_field generator.new result }
{
    slices::generator::<u64, u64, Poly64Kernel>(generator)
}

/// The product of left, of rows rows of inner elements, and right, of inner rows of columns elements.
#[unsafe(no_mangle)]
pub extern "C" fn bf_p64_matrix_multiply(
    left: &[u64],
    right: &[u64],
    product: &mut [u64],
    rows: u64,
    inner: u64,
    columns: u64,
) -> u32
    ensures { MultipliesMatrices poly64_field rows inner columns left.now right.now product.old product.new result }
{
    c_calls::matrices::multiply(P64::new(), left, right, product, rows, inner, columns)
}

/// Brings a matrix of rows rows of columns elements to reduced row echelon form; rank is its rank, the first rank of the rows places of
/// pivots become the columns of its leading entries, and the others stay.
#[unsafe(no_mangle)]
pub extern "C" fn bf_p64_matrix_row_reduce(
    matrix: &mut [u64],
    rows: u64,
    columns: u64,
    pivots: &mut [usize],
    rank: &mut usize,
) -> u32
    ensures { ReducesRows poly64_field rows columns matrix.old pivots.old rank.old matrix.new pivots.new rank.new result }
{
    c_calls::matrices::row_reduce(P64::new(), matrix, rows, columns, pivots, rank)
}

/// The rank of a matrix of rows rows of columns elements, in as much space and rows places, which may be written whatever the status.
#[unsafe(no_mangle)]
pub extern "C" fn bf_p64_matrix_rank(
    matrix: &[u64],
    rows: u64,
    columns: u64,
    space: &mut [u64],
    places: &mut [usize],
    rank: &mut usize,
) -> u32
    ensures { TakesRank poly64_field rows columns matrix.now (length space.old) (length places.old) rank.old rank.new result }
{
    c_calls::matrices::rank(P64::new(), matrix, rows, columns, space, places, rank)
}

/// The determinant of a matrix of size rows of size elements, in as much space, which may be written whatever the status; 1 of no rows.
#[unsafe(no_mangle)]
pub extern "C" fn bf_p64_matrix_determinant(
    matrix: &[u64],
    size: u64,
    space: &mut [u64],
    determinant: &mut u64,
) -> u32
    ensures { TakesDeterminant poly64_field size matrix.now (length space.old) determinant.old determinant.new result }
{
    c_calls::matrices::determinant(P64::new(), matrix, size, space, determinant)
}

/// The inverse of a matrix of size rows of size elements, in space for two of these and size places, which may be written whatever the
/// status.
#[unsafe(no_mangle)]
pub extern "C" fn bf_p64_matrix_inverse(
    matrix: &[u64],
    size: u64,
    inverse: &mut [u64],
    space: &mut [u64],
    places: &mut [usize],
) -> u32
    ensures { InvertsMatrix poly64_field size matrix.now (length space.old) (length places.old) inverse.old inverse.new result }
{
    c_calls::matrices::inverse(P64::new(), matrix, size, inverse, space, places)
}

/// A solution x of matrix * x = right, of rows equations in columns unknowns, in space for rows times columns + 1 elements and rows
/// places, which may be written whatever the status; an unknown that the others leave open is 0.
#[unsafe(no_mangle)]
pub extern "C" fn bf_p64_matrix_solve(
    matrix: &[u64],
    rows: u64,
    columns: u64,
    right: &[u64],
    solution: &mut [u64],
    space: &mut [u64],
    places: &mut [usize],
) -> u32
    ensures { SolvesEquations poly64_field rows columns matrix.now right.now (length space.old)
        (length places.old) solution.old solution.new result }
{
    c_calls::matrices::solve(
        P64::new(),
        matrix,
        rows,
        columns,
        right,
        solution,
        space,
        places,
    )
}
