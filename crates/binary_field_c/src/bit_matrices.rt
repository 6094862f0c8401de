// Calls over matrices over GF(2), whose rows are packed in words of 64 bits.
// Written by scripts/make_c_exports.py; do not edit.
ghost use Rattle.std.specs.Prelude.{length};
ghost use Rattle.c_calls.specs.BitMatrices.{MultipliesBits, ReducesBitRows, TakesBitRank, TransposesBits};

/// The product over GF(2) of left, of rows rows of inner bits, and right, of inner rows of columns bits.
#[unsafe(no_mangle)]
pub extern "C" fn bf_bit_matrix_multiply(
    left: &[u64],
    right: &[u64],
    product: &mut [u64],
    rows: u64,
    inner: u64,
    columns: u64,
) -> u32
    ensures { MultipliesBits rows inner columns left.now right.now product.old product.new result }
{
    c_calls::bit_matrices::multiply(left, right, product, rows, inner, columns)
}

/// The transpose of a matrix over GF(2) of rows rows of columns bits, which has columns rows of rows bits.
#[unsafe(no_mangle)]
pub extern "C" fn bf_bit_matrix_transpose(
    matrix: &[u64],
    transposed: &mut [u64],
    rows: u64,
    columns: u64,
) -> u32
    ensures { TransposesBits rows columns matrix.now transposed.old transposed.new result }
{
    c_calls::bit_matrices::transpose(matrix, transposed, rows, columns)
}

/// Brings a matrix over GF(2) of rows rows of columns bits to reduced row echelon form; rank is its rank, the first rank of the rows
/// places of pivots become the columns of its leading entries, and the others stay.
#[unsafe(no_mangle)]
pub extern "C" fn bf_bit_matrix_row_reduce(
    matrix: &mut [u64],
    rows: u64,
    columns: u64,
    pivots: &mut [usize],
    rank: &mut usize,
) -> u32
    ensures { ReducesBitRows rows columns matrix.old pivots.old rank.old matrix.new pivots.new rank.new result }
{
    c_calls::bit_matrices::row_reduce(matrix, rows, columns, pivots, rank)
}

/// The rank of a matrix over GF(2) of rows rows of columns bits, in as much space and rows places, which may be written whatever the
/// status.
#[unsafe(no_mangle)]
pub extern "C" fn bf_bit_matrix_rank(
    matrix: &[u64],
    rows: u64,
    columns: u64,
    space: &mut [u64],
    places: &mut [usize],
    rank: &mut usize,
) -> u32
    ensures { TakesBitRank rows columns matrix.now (length space.old) (length places.old) rank.old rank.new result }
{
    c_calls::bit_matrices::rank(matrix, rows, columns, space, places, rank)
}
