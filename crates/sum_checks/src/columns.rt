// Columns of a block of rows: the values of one polynomial at each row, gathered so that their products go by slices.
ghost use Rattle.std.specs.Prelude.{◌≡◌, ◌+◌, ◌*◌, ◌<◌, ℕ, length, map, slice_index};
ghost use Rattle.field_base.specs.Basis.{sum_below};
ghost use Rattle.sum_checks.specs.Terms.{row_entry, row_product};

use field_base::traits::Field;

// What the polynomial of number `place` has at a row of `count` values.
#[inline]
fn entry_of<F: Field>(rows: &[F], count: usize, row: usize, place: usize) -> F
    requires { row * count + place < length rows.now }
    ensures { F.repr result ≡ row_entry count (map F.repr rows.now) row place }
{
    rows[row * count + place]
}

// Writes to the column what the polynomial of number `place` has at each row of `count` values.
fn put_column<F: Field>(column: &mut [F], rows: &[F], count: usize, place: usize)
    requires inside { place < count }
    requires size { length rows.now ≡ length column.old * count }
    ensures { (i : ℕ) → i < length column.old → slice_index (map F.repr column.new) i ≡ row_entry count (map F.repr rows.now) i place }
{
    for row in 0..column.len() {
        column[row] = entry_of(rows, count, row, place);
    }
}

// Multiplies the column, row by row, by what the polynomial of number `place` has.
fn multiply_column<F: Field>(column: &mut [F], rows: &[F], count: usize, place: usize)
    requires inside { place < count }
    requires size { length rows.now ≡ length column.old * count }
    ensures { (i : ℕ) → i < length column.old → slice_index (map F.repr column.new) i
        ≡ F.product (slice_index (map F.repr column.old) i) (row_entry count (map F.repr rows.now) i place) }
{
    for row in 0..column.len() {
        column[row] = column[row] * entry_of(rows, count, row, place);
    }
}

// Writes to the column the product of the polynomials of these numbers at each row.
fn put_products<F: Field>(column: &mut [F], rows: &[F], count: usize, factors: &[usize])
    requires some { 0 < length factors.now }
    requires inside { (k : ℕ) → k < length factors.now → slice_index factors.now k < count }
    requires size { length rows.now ≡ length column.old * count }
    ensures { (i : ℕ) → i < length column.old → slice_index (map F.repr column.new) i
        ≡ row_product F.product count (map F.repr rows.now) factors.now i }
{
    put_column(column, rows, count, factors[0]);
    for place in 1..factors.len() {
        multiply_column(column, rows, count, factors[place]);
    }
}

// The sum of a column.
fn sum_of_column<F: Field>(column: &[F]) -> F
    ensures { F.repr result ≡ sum_below (slice_index (map F.repr column.now)) (length column.now) }
{
    let mut sum = F::ZERO;
    for place in 0..column.len() {
        sum = sum + column[place];
    }
    sum
}

/// The sum over the rows, of `count` values each, of the product of the polynomials of these numbers, each below `count`. Of no
/// polynomials a product is 1. There have to be as many rows as places in `left` and in `right`, which are written over.
pub(crate) fn sum_of_products<F: Field>(
    factors: &[usize],
    rows: &[F],
    count: usize,
    left: &mut [F],
    right: &mut [F],
) -> F
    requires inside { (k : ℕ) → k < length factors.now → slice_index factors.now k < count }
    requires size { length rows.now ≡ length left.old * count }
    requires same { length right.old ≡ length left.old }
    ensures { F.repr result ≡ sum_below (row_product F.product count (map F.repr rows.now) factors.now) (length left.old) }
{
    if factors.is_empty() {
        return F::from_u64(left.len() as u64);
    }
    if factors.len() == 1 {
        put_products(left, rows, count, factors);
        return sum_of_column(left);
    }
    let last = factors.len() - 1;
    put_products(left, rows, count, &factors[..last]);
    put_column(right, rows, count, factors[last]);
    F::dot_product_of_slices(left, right)
}
