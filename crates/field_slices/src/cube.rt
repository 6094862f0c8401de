// Values of multilinear polynomials, folding, and the table of eq.
//
// The first coordinate of a point is the highest bit of a corner's number, so that the corners where it is 0 are the lower half of the
// values, and those where it is 1 the upper.
ghost use Rattle.std.specs.Prelude.{◌≡◌, ◌/◌, ◌%◌, ◌^◌, ◌<◌, length, map, take, drop, bit_xor, IfOk};
ghost use Rattle.std.specs.List.{range_with_len};
ghost use Rattle.std.specs.Simd.Lanes.{zip2};
ghost use Rattle.field_slices.specs.Multilinear.{eq_corner, folded, multilinear_value, on_line};

use crate::sums::{add_slice, mul_slice};
use field_base::traits::{Field, PrimeCharacteristicRing};
use std::alloc::{AllocError, Allocator};

/// The value at `point` of the multilinear polynomial with these values at the corners, of which there have to be two to the power of
/// the point's length. It takes a product for each corner but one, and no memory.
pub fn evaluate_multilinear<F: Field>(values: &[F], point: &[F]) -> F
    requires { length values.now ≡ 2 ^ length point.now }
    ensures { F.repr result ≡ multilinear_value F.product (map F.repr values.now) (map F.repr point.now) }
{
    if point.is_empty() {
        return values[0];
    }
    let (lower, upper) = values.split_at(values.len() / 2);
    let low = evaluate_multilinear(lower, &point[1..]);
    let high = evaluate_multilinear(upper, &point[1..]);
    low + point[0] * (low + high)
}

/// Sets the first coordinate of the polynomial to `r`: the lower half of the values, of which there have to be an even number, becomes
/// `lower + r (lower + upper)`, the values at the corners of the other coordinates. The upper half stays. It goes by blocks, and the
/// products of a block are one call of `multiply_by`.
pub fn fold<F: Field>(values: &mut [F], r: F)
    requires { length values.old % 2 ≡ 0 }
    ensures folded { map F.repr (take (length values.old / 2) values.new) ≡ folded F.product (F.repr r) (map F.repr values.old) }
    ensures rest { drop (length values.old / 2) values.new ≡ drop (length values.old / 2) values.old }
{
    let half = values.len() / 2;
    let (lower, upper) = values.split_at_mut(half);
    fold_blocks(lower, upper, r);
}

// How many values go at once: so many that a scalar's tables pay, and that both halves of a block stay in the caches.
const BLOCK: usize = 1024;

// Puts at each place of the lower half what the line through both halves has at `r`, block by block.
fn fold_blocks<F: Field>(lower: &mut [F], upper: &[F], r: F)
    requires { length upper.now ≡ length lower.old }
    ensures { map F.repr lower.new ≡ zip2 (on_line F.product (F.repr r)) (map F.repr lower.old) (map F.repr upper.now) }
{
    let factor = F::ONE + r;
    let mut start = 0;
    while start < lower.len() {
        let size = BLOCK.min(lower.len() - start);
        let end = start + size;
        fold_block(&mut lower[start..end], &upper[start..end], factor);
        start = end;
    }
}

// Puts `upper + factor (lower + upper)` at each place of the lower half: what the line has at `1 + factor`.
fn fold_block<F: Field>(lower: &mut [F], upper: &[F], factor: F)
    requires { length upper.now ≡ length lower.old }
    ensures { map F.repr lower.new ≡ zip2 bit_xor
        (map (λ x. F.product (F.repr factor) x) (zip2 bit_xor (map F.repr lower.old) (map F.repr upper.now))) (map F.repr upper.now) }
{
    add_slice(lower, upper);
    F::multiply_by(lower, factor);
    add_slice(lower, upper);
}

/// The values of eq(`point`, corner) at the corners, two to the power of the point's length, which has to be below 64. It takes a
/// product for each corner but one. It fails only where the allocator refuses.
pub fn eq_poly<F: Field, A: Allocator>(alloc: A, point: &[F]) -> Result<Vec<F, A>, AllocError>
    requires { length point.now < 64 }
    ensures { IfOk result (λ table. map F.repr table.items
        ≡ map (eq_corner F.product (map F.repr point.now)) (range_with_len 0 (2 ^ length point.now))) }
{
    let mut table = F::zero_vec(alloc, 1 << point.len())?;
    eq_poly_into(table.as_mut_slice(), point);
    Ok(table)
}

/// Writes the values of eq(`point`, corner) at the corners to `table`, whose length has to be two to the power of the point's. It takes
/// no memory.
pub fn eq_poly_into<F: Field>(table: &mut [F], point: &[F])
    requires { length table.old ≡ 2 ^ length point.now }
    ensures { map F.repr table.new ≡ map (eq_corner F.product (map F.repr point.now)) (range_with_len 0 (2 ^ length point.now)) }
{
    if point.is_empty() {
        table[0] = F::ONE;
        return;
    }
    let half = table.len() / 2;
    let (lower, upper) = table.split_at_mut(half);
    eq_poly_into(lower, &point[1..]);
    split_first(lower, upper, point[0]);
}

// Of the values for the other coordinates makes those of both halves, where the first coordinate is `x`.
fn split_first<F: Field>(lower: &mut [F], upper: &mut [F], x: F)
    requires { length upper.old ≡ length lower.old }
    ensures upper { map F.repr upper.new ≡ map (λ e. F.product (F.repr x) e) (map F.repr lower.old) }
    ensures lower { map F.repr lower.new ≡ zip2 bit_xor (map F.repr lower.old) (map F.repr upper.new) }
{
    upper.copy_from_slice(lower);
    mul_slice(upper, x);
    add_slice(lower, upper);
}
