// Values of a polynomial that is given by its values at the first elements of its field, by Lagrange's formula.
ghost use Rattle.std.specs.Prelude.{◌≡◌, ◌^◌, ◌<◌, ◌≤◌, length, map, slice_index};
ghost use Rattle.field_base.specs.Interpolation.{interpolated, lagrange, other_factors};

use field_base::traits::{Field, PrimeCharacteristicRing};

/// The value at `x` of the polynomial of as many coefficients as there are values that has value i at the element of representation
/// i, for each i. There may be as many values as the field has elements. Of k values it takes some 2 k² products and k inverses, and no
/// memory.
pub fn interpolate_at_nodes<F: Field>(values: &[F], x: F) -> F
    requires { length values.now ≤ 2 ^ F.width }
    ensures { F.repr result
        ≡ interpolated F.width F.product (λ i. i) (slice_index (map F.repr values.now)) (length values.now) (F.repr x) }
{
    let mut sum = F::ZERO;
    for own in 0..values.len() {
        sum = sum + basis_at(own, values.len(), x) * values[own];
    }
    sum
}

// The value at `x` of the polynomial that is 1 at node `own`, and 0 at the others.
fn basis_at<F: Field>(own: usize, count: usize, x: F) -> F
    requires own { own < count }
    requires count { count ≤ 2 ^ F.width }
    ensures { F.repr result ≡ lagrange F.width F.product (λ i. i) count own (F.repr x) }
{
    let above = differences_at(own, count, x);
    let below = differences_at(own, count, F::interpolation_node(own));
    above * below.inverse()
}

// The product of the differences of `x` to the nodes but `own`.
fn differences_at<F: Field>(own: usize, count: usize, x: F) -> F
    requires { count ≤ 2 ^ F.width }
    ensures { F.repr result ≡ other_factors F.product (λ i. i) own (F.repr x) count }
{
    let mut product = F::ONE;
    for i in 0..count {
        if i != own {
            product = product * (x + F::interpolation_node(i));
        }
    }
    product
}
