// The factors by which shares are summed: Lagrange's interpolation through the points of the first shares, and the
// scales that make them words of a code. They follow from indexes.
ghost use Rattle.std.specs.Prelude.{◌≡◌, ◌-◌, ◌<◌, ◌≤◌, ◌^◌, ℕ, length, slice_index};
ghost use Rattle.field_base.specs.Interpolation.{lagrange, other_factors};
ghost use Rattle.error_codes.specs.Checks.{dual_weight};
ghost use Rattle.reed_solomon.specs.ByteFields.{byte_times};

use reed_solomon::byte_field::{ByteField, multiply, power_of};

// The factors of the first `needed` shares in the value at x.
pub(crate) fn factors_at(field: ByteField, indexes: &[u8], needed: usize, x: u8) -> [u8; 255]
    requires few { needed ≤ 255 }
    requires within { needed ≤ length indexes.now }
    ensures { (i : ℕ) → i < needed
        → slice_index result i ≡ lagrange 8 (byte_times field) (slice_index indexes.now) needed i x }
{
    let mut factors = [0; 255];
    for own in 0..needed {
        factors[own] = factor_at(field, indexes, needed, own, x);
    }
    factors
}

// The scales by which the values of a polynomial at all indexes are a word of a code by checks: the inverse of the
// product of the differences of an index to the others.
pub(crate) fn scales_of(field: ByteField, indexes: &[u8]) -> [u8; 255]
    requires few { length indexes.now ≤ 255 }
    ensures { (i : ℕ) → i < length indexes.now → slice_index result i
        ≡ dual_weight 8 (byte_times field) (length indexes.now) (slice_index indexes.now) i }
{
    let count = indexes.len();
    let mut scales = [0; 255];
    for own in 0..count {
        scales[own] = power_of(
            field,
            differences(field, indexes, count, own, indexes[own]),
            254,
        );
    }
    scales
}

// The factor of share `own`: the product of (x - p) / (own index - p) over the other indexes p.
fn factor_at(field: ByteField, indexes: &[u8], needed: usize, own: usize, x: u8) -> u8
    requires within { needed ≤ length indexes.now }
    requires inside { own < needed }
    ensures { result ≡ lagrange 8 (byte_times field) (slice_index indexes.now) needed own x }
{
    let above = differences(field, indexes, needed, own, x);
    let below = differences(field, indexes, needed, own, indexes[own]);
    multiply(field, above, power_of(field, below, 254))
}

// The product of the differences of x to the other indexes.
fn differences(field: ByteField, indexes: &[u8], needed: usize, own: usize, x: u8) -> u8
    requires within { needed ≤ length indexes.now }
    ensures { result ≡ other_factors (byte_times field) (slice_index indexes.now) own x needed }
{
    let mut product = 1;
    for i in 0..needed {
        if i != own {
            product = multiply(field, product, x ^ indexes[i]);
        }
    }
    product
}
