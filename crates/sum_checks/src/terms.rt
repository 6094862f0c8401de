// Sums of products of polynomials, by their values.
ghost use Rattle.std.specs.Prelude.{◌≡◌, ◌+◌, ◌*◌, ◌^◌, ◌<◌, ◌≤◌, ◌↔◌, ℕ, drop, length, map, slice_index, take, IfSome, IsNone, IsTrue};
ghost use Rattle.field_base.specs.Basis.{product_below, sum_below};
ghost use Rattle.sum_checks.specs.Terms.{ArePairs, AreWithin, FactorsAreWithin, cube_sum, degree_of, product_value, row_entry, rows_sum, terms_value};

use crate::columns::sum_of_products;
use field_base::traits::Field;

/// A product of at most four polynomials with a coefficient. A polynomial is named by its number.
#[derive(Clone, Copy)]
pub struct Term<F> {
    pub(crate) coefficient: F,
    pub(crate) factors: [usize; 4],
    pub(crate) count: usize,
}

impl<F: Field> Term<F> {
    ghost use Rattle.sum_checks.specs.Products.{factors_of, term_product};

    /// The product of the polynomials of these numbers, of which there may be at most four, with a coefficient; of no polynomials it is
    /// the coefficient. None if there are more.
    pub fn new(coefficient: F, factors: &[usize]) -> Option<Term<F>>
        ensures few { IsNone result ↔ (4 < length factors.now) }
        ensures made { IfSome result (λ term. (term.coefficient ≡ coefficient) × (factors_of term ≡ factors.now)) }
    {
        if factors.len() > 4 {
            return None;
        }
        let mut places = [0; 4];
        places[..factors.len()].copy_from_slice(factors);
        Some(Term {
            coefficient,
            factors: places,
            count: factors.len(),
        })
    }

    // The numbers of the polynomials.
    pub(crate) fn factors(&self) -> &[usize]
        ensures are { result.now ≡ factors_of self.now }
        ensures few { length result.now ≤ 4 }
    {
        &self.factors[..self.count.min(4)]
    }

    // Its value where the polynomials have the values of the row.
    fn value_at(&self, row: &[F]) -> F
        requires { FactorsAreWithin (length row.now) (term_product F.repr self.now) }
        ensures { F.repr result ≡ product_value F.product (slice_index (map F.repr row.now)) (term_product F.repr self.now) }
    {
        self.scaled(product_of(self.factors(), row))
    }

    // The sum over the rows, of `count` values each, of its values at them. There are as many rows as places in `left` and in `right`,
    // which are written over.
    fn sum_over(&self, rows: &[F], count: usize, left: &mut [F], right: &mut [F]) -> F
        requires within { FactorsAreWithin count (term_product F.repr self.now) }
        requires size { length rows.now ≡ length left.old * count }
        requires same { length right.old ≡ length left.old }
        ensures { F.repr result ≡ sum_below
            (λ i. product_value F.product (row_entry count (map F.repr rows.now) i) (term_product F.repr self.now)) (length left.old) }
    {
        let factors = self.factors();
        self.scaled(sum_of_products(factors, rows, count, left, right))
    }

    // The coefficient times the value.
    fn scaled(&self, value: F) -> F
        ensures { F.repr result ≡ F.product (F.repr self.now.coefficient) (F.repr value) }
    {
        if self.coefficient == F::ONE {
            return value;
        }
        self.coefficient * value
    }
}

ghost use Rattle.sum_checks.specs.Products.{term_product};

// The product of the values at these places of the row, with a product for each but the first.
fn product_of<F: Field>(factors: &[usize], row: &[F]) -> F
    requires { (k : ℕ) → k < length factors.now → slice_index factors.now k < length row.now }
    ensures { F.repr result
        ≡ product_below F.product (λ k. slice_index (map F.repr row.now) (slice_index factors.now k)) (length factors.now) }
{
    if factors.is_empty() {
        return F::ONE;
    }
    let mut product = row[factors[0]];
    for place in 1..factors.len() {
        let factor = factors[place];
        product = product * row[factor];
    }
    product
}

// Whether each of the numbers is below `count`.
fn are_below(numbers: &[usize], count: usize) -> bool
    ensures { IsTrue result ↔ ((k : ℕ) → k < length numbers.now → slice_index numbers.now k < count) }
{
    if numbers.is_empty() {
        return true;
    }
    let first = numbers[0];
    if first >= count {
        return false;
    }
    are_below(&numbers[1..], count)
}

/// Whether each factor of the terms is the number of one of `count` polynomials.
pub fn are_within<F: Field>(terms: &[Term<F>], count: usize) -> bool
    ensures { IsTrue result ↔ AreWithin count (map (term_product F.repr) terms.now) }
{
    if terms.is_empty() {
        return true;
    }
    let term = terms[0];
    let factors = term.factors();
    if !are_below(factors, count) {
        return false;
    }
    are_within(&terms[1..], count)
}

/// The most factors of a term, and 1 where there are none.
pub fn degree<F: Field>(terms: &[Term<F>]) -> usize
    ensures is { result ≡ degree_of (map (term_product F.repr) terms.now) }
    ensures some { 0 < result }
    ensures few { result ≤ 4 }
{
    if terms.is_empty() {
        return 1;
    }
    let term = terms[0];
    let factors = term.factors();
    let others = degree(&terms[1..]);
    factors.len().max(others)
}

// Whether each term has two factors.
pub(crate) fn are_pairs<F: Field>(terms: &[Term<F>]) -> bool
    ensures { IsTrue result ↔ ArePairs (map (term_product F.repr) terms.now) }
{
    if terms.is_empty() {
        return true;
    }
    let term = terms[0];
    let factors = term.factors();
    if factors.len() != 2 {
        return false;
    }
    are_pairs(&terms[1..])
}

/// The value of a sum of products where the polynomials have the values of the row. Each factor has to be the number of one of them.
pub fn terms_at<F: Field>(terms: &[Term<F>], row: &[F]) -> F
    requires { AreWithin (length row.now) (map (term_product F.repr) terms.now) }
    ensures { F.repr result ≡ terms_value F.product (map (term_product F.repr) terms.now) (slice_index (map F.repr row.now)) }
{
    if terms.is_empty() {
        return F::ZERO;
    }
    let term = terms[0];
    let first = term.value_at(row);
    let others = terms_at(&terms[1..], row);
    first + others
}

// The sum over the rows, of `count` values each, of the value of a sum of products at them. There are as many rows as places in `left` and
// in `right`, which are written over.
fn terms_sum<F: Field>(
    terms: &[Term<F>],
    rows: &[F],
    count: usize,
    left: &mut [F],
    right: &mut [F],
) -> F
    requires within { AreWithin count (map (term_product F.repr) terms.now) }
    requires size { length rows.now ≡ length left.old * count }
    requires same { length right.old ≡ length left.old }
    ensures { F.repr result ≡ rows_sum F.product (map (term_product F.repr) terms.now) count (length left.old) (map F.repr rows.now) }
{
    if terms.is_empty() {
        return F::ZERO;
    }
    let term = terms[0];
    let first = term.sum_over(rows, count, left, right);
    let others = terms_sum(&terms[1..], rows, count, left, right);
    first + others
}

// So many rows of `count` values each, from a row on.
#[inline]
fn rows_from<F>(values: &[F], count: usize, start: usize, size: usize) -> &[F]
    requires { (start + size) * count ≤ length values.now }
    ensures values { result.now ≡ take (size * count) (drop (start * count) values.now) }
    ensures count { length result.now ≡ size * count }
{
    &values[start * count..][..size * count]
}

// The sum of the terms over so many rows, in blocks as long as `left` and `right`.
fn blocks_sum<F: Field>(
    terms: &[Term<F>],
    values: &[F],
    count: usize,
    rows: usize,
    left: &mut [F],
    right: &mut [F],
) -> F
    requires within { AreWithin count (map (term_product F.repr) terms.now) }
    requires size { length values.now ≡ rows * count }
    requires some { 0 < length left.old }
    requires same { length right.old ≡ length left.old }
    ensures { F.repr result ≡ rows_sum F.product (map (term_product F.repr) terms.now) count rows (map F.repr values.now) }
{
    let mut sum = F::ZERO;
    let mut start = 0;
    while start < rows {
        let size = left.len().min(rows - start);
        let block = rows_from(values, count, start, size);
        let part = terms_sum(terms, block, count, &mut left[..size], &mut right[..size]);
        sum = sum + part;
        start += size;
    }
    sum
}

// `blocks_sum`, row by row.
fn sum_by_rows<F: Field>(terms: &[Term<F>], values: &[F], count: usize, rows: usize) -> F
    requires within { AreWithin count (map (term_product F.repr) terms.now) }
    requires size { length values.now ≡ rows * count }
    ensures { F.repr result ≡ rows_sum F.product (map (term_product F.repr) terms.now) count rows (map F.repr values.now) }
{
    let mut sum = F::ZERO;
    for row in 0..rows {
        let value = terms_at(terms, rows_from(values, count, row, 1));
        sum = sum + value;
    }
    sum
}

// How many rows go at once.
const BLOCK: usize = 256;

// `blocks_sum`, with columns of its own. There are at least as many values as a column has, so that the columns fit in memory.
fn sum_by_blocks<F: Field>(terms: &[Term<F>], values: &[F], count: usize, rows: usize) -> F
    requires within { AreWithin count (map (term_product F.repr) terms.now) }
    requires size { length values.now ≡ rows * count }
    requires long { 256 ≤ length values.now }
    ensures { F.repr result ≡ rows_sum F.product (map (term_product F.repr) terms.now) count rows (map F.repr values.now) }
{
    let mut left = [F::ZERO; BLOCK];
    let mut right = [F::ZERO; BLOCK];
    blocks_sum(terms, values, count, rows, &mut left, &mut right)
}

/// The sum over the corners of the cube of `rounds` coordinates, below 64: row i of the values has those of `count` polynomials at
/// corner i, and has to have one for each factor.
pub fn cube_sum<F: Field>(terms: &[Term<F>], values: &[F], count: usize, rounds: usize) -> F
    requires few { rounds < 64 }
    requires within { AreWithin count (map (term_product F.repr) terms.now) }
    requires size { length values.now ≡ 2 ^ rounds * count }
    ensures { F.repr result ≡ cube_sum F.product (map (term_product F.repr) terms.now) count rounds (map F.repr values.now) }
{
    if values.len() < BLOCK {
        return sum_by_rows(terms, values, count, 1 << rounds);
    }
    sum_by_blocks(terms, values, count, 1 << rounds)
}
