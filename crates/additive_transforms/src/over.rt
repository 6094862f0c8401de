// Values of polynomials in the basis of the products of the s_j, over any field.
ghost use Rattle.std.specs.Prelude.{◌≡◌, ◌^◌, ◌+◌, ◌<◌, ◌≤◌, ℕ, length, map, take, drop, slice_index};
ghost use Rattle.ghash_slices.specs.Cantor.{polynomial_value, subspace_value};

use field_base::traits::Field;

/// The value at `x` of the polynomial with these coefficients in the basis of the products of the s_j, where s_0(x) = x and
/// s_(j + 1)(x) = s_j(x)^2 + s_j(x): the sum of `coefficients[k]` times the product of the s_j(x) over the set bits j of k; of
/// no coefficients it is 0 (S.-J. Lin, W.-H. Chung and Y. S. Han, Novel polynomial basis and its application to Reed-Solomon
/// erasure codes, 2014). Any number of coefficients will do. It takes some two products a coefficient, and no memory.
pub fn evaluate_cantor<F: Field>(coefficients: &[F], x: F) -> F
    ensures { (n : ℕ) → length coefficients.now ≤ 2 ^ n
        → F.repr result ≡ polynomial_value F.product n (slice_index (map F.repr coefficients.now)) (F.repr x) }
{
    value_by_halves(coefficients, usize::BITS as usize, x)
}

// `evaluate_cantor` for at most 2^levels coefficients: the value of the lower half, plus s_(levels - 1)(x) times that of the upper half.
fn value_by_halves<F: Field>(coefficients: &[F], levels: usize, x: F) -> F
    requires few { levels ≤ 64 }
    requires fit { length coefficients.now ≤ 2 ^ levels }
    ensures { F.repr result ≡ polynomial_value F.product levels (slice_index (map F.repr coefficients.now)) (F.repr x) }
{
    if levels == 0 {
        return first_or_zero(coefficients);
    }
    let level = levels - 1;
    if coefficients.len() <= 1 << level {
        return value_by_halves(coefficients, level, x);
    }
    let (lower, upper) = halves_of(coefficients, level);
    let value = value_by_halves(upper, level, x);
    value_by_halves(lower, level, x) + subspace_value(x, level) * value
}

// The first 2^level coefficients, and the others, which are no more than those.
fn halves_of<F: Field>(coefficients: &[F], level: usize) -> (&[F], &[F])
    requires few { level < 64 }
    requires more { 2 ^ level ≤ length coefficients.now }
    requires fit { length coefficients.now ≤ 2 ^ (level + 1) }
    ensures lower { result.0.now ≡ take (2 ^ level) coefficients.now }
    ensures upper { result.1.now ≡ drop (2 ^ level) coefficients.now }
    ensures lower_fits { length result.0.now ≤ 2 ^ level }
    ensures upper_fits { length result.1.now ≤ 2 ^ level }
{
    coefficients.split_at(1 << level)
}

// The first coefficient, or 0 where there is none.
fn first_or_zero<F: Field>(coefficients: &[F]) -> F
    ensures { F.repr result ≡ slice_index (map F.repr coefficients.now) 0 }
{
    match coefficients.first() {
        Some(&first) => first,
        None => F::ZERO,
    }
}

/// s_j(x), where s_0(x) = x and s_(j + 1)(x) = s_j(x)^2 + s_j(x). It takes j squares.
pub fn subspace_value<F: Field>(x: F, j: usize) -> F
    ensures { F.repr result ≡ subspace_value F.product j (F.repr x) }
{
    let mut value = x;
    for _ in 0..j {
        value = value.square() + value;
    }
    value
}
