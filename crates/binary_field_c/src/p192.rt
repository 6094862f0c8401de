// Calls over slices of elements of GF(2^64)[y] modulo y^3 + y + 1 over p64, the coefficient of 1 first.
// Written by scripts/make_c_exports.py; do not edit.
ghost use Rattle.std.specs.Prelude.{length};
ghost use Rattle.c_calls.specs.Calls.{Adds, AddsScaled, Evaluates, Inverts, Multiplies, MultipliesBy, NamesGenerator, RaisesTo};
ghost use Rattle.c_calls.specs.Calls.{Squares, TakesDotProduct, TakesProduct, TakesRoots};
ghost use Rattle.c_calls.specs.Fields.{cubic_field};
ghost use Rattle.c_calls.specs.Matrices.{InvertsMatrix, MultipliesMatrices, ReducesRows, SolvesEquations, TakesDeterminant, TakesRank};

use c_calls::operations::{Square, SquareRoot, Sum};
use c_calls::{Cubic, CubicKernel, Triple, Words, in_place, slices};
use std::simd::prelude::*;

type P192 = Words<Triple, Cubic, CubicKernel, u64x2>;

/// The sum of the elements at each place.
#[unsafe(no_mangle)]
pub extern "C" fn bf_p192_add(left: &[Cubic], right: &[Cubic], sums: &mut [Cubic]) -> u32
    ensures { Adds cubic_field left.now right.now sums.old sums.new result }
{
    slices::write_each_of_two(P192::new(), left, right, sums, &Sum)
}

/// The product of the elements at each place.
#[unsafe(no_mangle)]
pub extern "C" fn bf_p192_multiply(left: &[Cubic], right: &[Cubic], products: &mut [Cubic]) -> u32
    ensures { Multiplies cubic_field left.now right.now products.old products.new result }
{
    c_calls::multiply(P192::new(), left, right, products)
}

/// The product of each element and the scalar.
#[unsafe(no_mangle)]
pub extern "C" fn bf_p192_multiply_by(
    values: &[Cubic],
    scalar: &Cubic,
    products: &mut [Cubic],
) -> u32
    ensures { MultipliesBy cubic_field scalar.now values.now products.old products.new result }
{
    c_calls::multiply_by(P192::new(), values, *scalar, products)
}

/// Adds to each element of sums the scalar times the value at its place.
#[unsafe(no_mangle)]
pub extern "C" fn bf_p192_add_scaled(sums: &mut [Cubic], scalar: &Cubic, values: &[Cubic]) -> u32
    ensures { AddsScaled cubic_field scalar.now values.now sums.old sums.new result }
{
    c_calls::add_scaled(P192::new(), sums, *scalar, values)
}

/// The square of each element.
#[unsafe(no_mangle)]
pub extern "C" fn bf_p192_square(values: &[Cubic], squares: &mut [Cubic]) -> u32
    ensures { Squares cubic_field values.now squares.old squares.new result }
{
    slices::write_each(P192::new(), values, squares, &Square, false)
}

/// The inverse of each element, and 0 for 0.
#[unsafe(no_mangle)]
pub extern "C" fn bf_p192_inverse(values: &[Cubic], inverses: &mut [Cubic]) -> u32
    ensures { Inverts cubic_field values.now inverses.old inverses.new result }
{
    c_calls::invert(P192::new(), values, inverses)
}

/// The same as inverse.
#[unsafe(no_mangle)]
pub extern "C" fn bf_p192_batch_inverse(values: &[Cubic], inverses: &mut [Cubic]) -> u32
    ensures { Inverts cubic_field values.now inverses.old inverses.new result }
{
    c_calls::batch_invert(P192::new(), values, inverses)
}

/// The square root of each element.
#[unsafe(no_mangle)]
pub extern "C" fn bf_p192_square_root(values: &[Cubic], roots: &mut [Cubic]) -> u32
    ensures { TakesRoots cubic_field values.now roots.old roots.new result }
{
    slices::write_each(P192::new(), values, roots, &SquareRoot, false)
}

/// Each element to the power of the exponent; to the power 0 it is 1.
#[unsafe(no_mangle)]
pub extern "C" fn bf_p192_power(values: &[Cubic], exponent: u64, powers: &mut [Cubic]) -> u32
    ensures { RaisesTo cubic_field exponent values.now powers.old powers.new result }
{
    c_calls::raise(P192::new(), values, exponent, powers)
}

/// The product of all elements, 1 of none.
#[unsafe(no_mangle)]
pub extern "C" fn bf_p192_product(values: &[Cubic], product: &mut Cubic) -> u32
    ensures { TakesProduct cubic_field values.now product.old product.new result }
{
    slices::product(P192::new(), values, product)
}

/// The sum of the products at each place, 0 of none.
#[unsafe(no_mangle)]
pub extern "C" fn bf_p192_dot_product(left: &[Cubic], right: &[Cubic], sum: &mut Cubic) -> u32
    ensures { TakesDotProduct cubic_field left.now right.now sum.old sum.new result }
{
    c_calls::dot_product(P192::new(), left, right, sum)
}

/// The value at each point of the polynomial with these coefficients, the constant one first; any number of coefficients.
#[unsafe(no_mangle)]
pub extern "C" fn bf_p192_evaluate(
    coefficients: &[Cubic],
    points: &[Cubic],
    values: &mut [Cubic],
) -> u32
    ensures { Evaluates cubic_field coefficients.now points.now values.old values.new result }
{
    c_calls::evaluate(P192::new(), coefficients, points, values)
}

/// Adds to each element of sums the value at its place.
#[unsafe(no_mangle)]
pub extern "C" fn bf_p192_add_in_place(sums: &mut [Cubic], values: &[Cubic]) -> u32
    ensures { Adds cubic_field sums.old values.now sums.old sums.new result }
{
    in_place::change_each_by(P192::new(), sums, values, &Sum)
}

/// Multiplies each element of products by the value at its place.
#[unsafe(no_mangle)]
pub extern "C" fn bf_p192_multiply_in_place(products: &mut [Cubic], values: &[Cubic]) -> u32
    ensures { Multiplies cubic_field products.old values.now products.old products.new result }
{
    c_calls::multiply_in_place(P192::new(), products, values)
}

/// Multiplies each element by the scalar.
#[unsafe(no_mangle)]
pub extern "C" fn bf_p192_multiply_by_in_place(values: &mut [Cubic], scalar: &Cubic) -> u32
    ensures { MultipliesBy cubic_field scalar.now values.old values.old values.new result }
{
    c_calls::multiply_by_in_place(P192::new(), values, *scalar)
}

/// Squares each element.
#[unsafe(no_mangle)]
pub extern "C" fn bf_p192_square_in_place(values: &mut [Cubic]) -> u32
    ensures { Squares cubic_field values.old values.old values.new result }
{
    in_place::change_each(P192::new(), values, &Square)
}

/// Leaves the inverse of each element, and 0 of 0.
#[unsafe(no_mangle)]
pub extern "C" fn bf_p192_inverse_in_place(values: &mut [Cubic]) -> u32
    ensures { Inverts cubic_field values.old values.old values.new result }
{
    c_calls::invert_in_place(P192::new(), values)
}

/// Leaves the square root of each element.
#[unsafe(no_mangle)]
pub extern "C" fn bf_p192_square_root_in_place(values: &mut [Cubic]) -> u32
    ensures { TakesRoots cubic_field values.old values.old values.new result }
{
    in_place::change_each(P192::new(), values, &SquareRoot)
}

/// Raises each element to the power of the exponent; to the power 0 it is 1.
#[unsafe(no_mangle)]
pub extern "C" fn bf_p192_power_in_place(values: &mut [Cubic], exponent: u64) -> u32
    ensures { RaisesTo cubic_field exponent values.old values.old values.new result }
{
    c_calls::raise_in_place(P192::new(), values, exponent)
}

/// The generator of the field's multiplicative group that the library names.
#[unsafe(no_mangle)]
pub extern "C" fn bf_p192_generator(generator: &mut Cubic) -> u32
    ensures { NamesGenerator cubic_field generator.new result }
{
    slices::generator::<Triple, Cubic, CubicKernel>(generator)
}

/// The product of left, of rows rows of inner elements, and right, of inner rows of columns elements.
#[unsafe(no_mangle)]
pub extern "C" fn bf_p192_matrix_multiply(
    left: &[Cubic],
    right: &[Cubic],
    product: &mut [Cubic],
    rows: u64,
    inner: u64,
    columns: u64,
) -> u32
    ensures { MultipliesMatrices cubic_field rows inner columns left.now right.now product.old product.new result }
{
    c_calls::matrices::multiply(P192::new(), left, right, product, rows, inner, columns)
}

/// Brings a matrix of rows rows of columns elements to reduced row echelon form; rank is its rank, the first rank of the rows places of
/// pivots become the columns of its leading entries, and the others stay.
#[unsafe(no_mangle)]
pub extern "C" fn bf_p192_matrix_row_reduce(
    matrix: &mut [Cubic],
    rows: u64,
    columns: u64,
    pivots: &mut [usize],
    rank: &mut usize,
) -> u32
    ensures { ReducesRows cubic_field rows columns matrix.old pivots.old rank.old matrix.new pivots.new rank.new result }
{
    c_calls::matrices::row_reduce(P192::new(), matrix, rows, columns, pivots, rank)
}

/// The rank of a matrix of rows rows of columns elements, in as much space and rows places, which may be written whatever the status.
#[unsafe(no_mangle)]
pub extern "C" fn bf_p192_matrix_rank(
    matrix: &[Cubic],
    rows: u64,
    columns: u64,
    space: &mut [Cubic],
    places: &mut [usize],
    rank: &mut usize,
) -> u32
    ensures { TakesRank cubic_field rows columns matrix.now (length space.old) (length places.old) rank.old rank.new result }
{
    c_calls::matrices::rank(P192::new(), matrix, rows, columns, space, places, rank)
}

/// The determinant of a matrix of size rows of size elements, in as much space, which may be written whatever the status; 1 of no rows.
#[unsafe(no_mangle)]
pub extern "C" fn bf_p192_matrix_determinant(
    matrix: &[Cubic],
    size: u64,
    space: &mut [Cubic],
    determinant: &mut Cubic,
) -> u32
    ensures { TakesDeterminant cubic_field size matrix.now (length space.old) determinant.old determinant.new result }
{
    c_calls::matrices::determinant(P192::new(), matrix, size, space, determinant)
}

/// The inverse of a matrix of size rows of size elements, in space for two of these and size places, which may be written whatever the
/// status.
#[unsafe(no_mangle)]
pub extern "C" fn bf_p192_matrix_inverse(
    matrix: &[Cubic],
    size: u64,
    inverse: &mut [Cubic],
    space: &mut [Cubic],
    places: &mut [usize],
) -> u32
    ensures { InvertsMatrix cubic_field size matrix.now (length space.old) (length places.old) inverse.old inverse.new result }
{
    c_calls::matrices::inverse(P192::new(), matrix, size, inverse, space, places)
}

/// A solution x of matrix * x = right, of rows equations in columns unknowns, in space for rows times columns + 1 elements and rows
/// places, which may be written whatever the status; an unknown that the others leave open is 0.
#[unsafe(no_mangle)]
pub extern "C" fn bf_p192_matrix_solve(
    matrix: &[Cubic],
    rows: u64,
    columns: u64,
    right: &[Cubic],
    solution: &mut [Cubic],
    space: &mut [Cubic],
    places: &mut [usize],
) -> u32
    ensures { SolvesEquations cubic_field rows columns matrix.now right.now (length space.old)
        (length places.old) solution.old solution.new result }
{
    c_calls::matrices::solve(
        P192::new(),
        matrix,
        rows,
        columns,
        right,
        solution,
        space,
        places,
    )
}
