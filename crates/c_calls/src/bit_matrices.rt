// Products, transposes, eliminations and ranks of matrices over GF(2), whose rows are packed in words of 64 bits.
ghost use Rattle.std.specs.Prelude.{◌≡◌, ◌↔◌, ◌*◌, IsTrue, length};
ghost use Rattle.bits_packed.specs.BitMatrices.{words_for};
ghost use Rattle.c_calls.specs.BitMatrices.{AreBits, MultipliesBits, ReducesBitRows, TakesBitRank, TransposesBits};

use crate::shapes::has_shape;
use crate::status;
use bits_packed::matrices;

// A row of `columns` bits takes `columns.div_ceil(64)` words, row after row in a slice, and column j of a row is bit j % 64 of its word j / 64.
// The bits behind the columns are 0: words where they are not are no elements, and what is written has zeros there.

/// Writes the product of `left`, of `rows` rows of `inner` bits, and `right`, of `inner` rows of `columns` bits.
pub fn multiply(
    left: &[u64],
    right: &[u64],
    product: &mut [u64],
    rows: u64,
    inner: u64,
    columns: u64,
) -> u32
    ensures { MultipliesBits rows inner columns left.now right.now product.old product.new result }
{
    let (rows, inner, columns) = (rows as usize, inner as usize, columns as usize);
    if !has_bit_shape(left, rows, inner)
        || !has_bit_shape(right, inner, columns)
        || !has_bit_shape(product, rows, columns)
    {
        return status::LENGTH;
    }
    if !are_bits(left, rows, inner) || !are_bits(right, inner, columns) {
        return status::NOT_AN_ELEMENT;
    }
    matrices::multiply_into(product, left, right, rows, inner, columns);
    status::OK
}

/// Writes the transpose of a matrix of `rows` rows of `columns` bits, which has `columns` rows of `rows` bits.
pub fn transpose(matrix: &[u64], transposed: &mut [u64], rows: u64, columns: u64) -> u32
    ensures { TransposesBits rows columns matrix.now transposed.old transposed.new result }
{
    let (rows, columns) = (rows as usize, columns as usize);
    if !has_bit_shape(matrix, rows, columns) || !has_bit_shape(transposed, columns, rows) {
        return status::LENGTH;
    }
    if !are_bits(matrix, rows, columns) {
        return status::NOT_AN_ELEMENT;
    }
    matrices::transpose_into(transposed, matrix, rows, columns);
    status::OK
}

/// Brings a matrix of `rows` rows of `columns` bits to reduced row echelon form, and writes its rank. The first so many places of
/// `pivots`, which has a place for each row, become the columns of the leading entries, and the others stay.
pub fn row_reduce(
    matrix: &mut [u64],
    rows: u64,
    columns: u64,
    pivots: &mut [usize],
    rank: &mut usize,
) -> u32
    ensures { ReducesBitRows rows columns matrix.old pivots.old rank.old matrix.new pivots.new rank.new result }
{
    let (rows, columns) = (rows as usize, columns as usize);
    if !has_bit_shape(matrix, rows, columns) || pivots.len() != rows {
        return status::LENGTH;
    }
    if !are_bits(matrix, rows, columns) {
        return status::NOT_AN_ELEMENT;
    }
    *rank = matrices::row_reduce(matrix, rows, columns, pivots);
    status::OK
}

/// Writes the rank of a matrix of `rows` rows of `columns` bits, in as much space, and a place for each row. Nothing is said of what is
/// left in space and places, whatever the status.
pub fn rank(
    matrix: &[u64],
    rows: u64,
    columns: u64,
    space: &mut [u64],
    places: &mut [usize],
    rank: &mut usize,
) -> u32
    ensures { TakesBitRank rows columns matrix.now (length space.old) (length places.old) rank.old rank.new result }
{
    let (rows, columns) = (rows as usize, columns as usize);
    if !has_bit_shape(matrix, rows, columns)
        || space.len() != matrix.len()
        || places.len() != rows
    {
        return status::LENGTH;
    }
    if !are_bits(matrix, rows, columns) {
        return status::NOT_AN_ELEMENT;
    }
    space.copy_from_slice(matrix);
    *rank = matrices::row_reduce(space, rows, columns, places);
    status::OK
}

// Whether a slice has the words of a matrix of so many rows and columns.
fn has_bit_shape(matrix: &[u64], rows: usize, columns: usize) -> bool
    ensures { IsTrue result ↔ (length matrix.now ≡ rows * words_for columns) }
{
    has_shape(matrix.len(), rows, columns.div_ceil(64))
}

// Whether the bits behind the columns of each row are 0.
fn are_bits(matrix: &[u64], rows: usize, columns: usize) -> bool
    requires { length matrix.now ≡ rows * words_for columns }
    ensures { IsTrue result ↔ AreBits rows columns matrix.now }
{
    let words = columns.div_ceil(64);
    let used = columns % 64;
    if used == 0 {
        return true;
    }
    for i in 0..rows {
        if matrix[i * words + (words - 1)] >> used != 0 {
            return false;
        }
    }
    true
}
