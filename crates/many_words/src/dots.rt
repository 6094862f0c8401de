// Sums of products of words of a field that multiplies words in slices of bits: the products of each block are made, and added up.
ghost use prog.Memory.{size};
ghost use denote.Param.{layout};
ghost use Rattle.std.specs.Prelude.{◌≡◌, ◌<◌, ◌≤◌, ◌*◌, ◌^◌, ℕ, bit_xor, length};
ghost use Rattle.field_base.specs.Powers.{dot_of};

use crate::fields::{self, read_each};
use crate::in_slices::{FieldInSlices, LEAST_IN_SLICES};
use field_base::{Reads, Stored};
use std::simd::prelude::*;

// How many products are made at once.
const BLOCK: usize = 128;

/// The sum of the products at each place, which is 0 of none. The slices are of one length. Few are multiplied two at a time.
#[inline]
pub(crate) fn dot_product<R: Stored, P: Reads<R>, K: FieldInSlices<R>>(left: &[P], right: &[P]) -> R
    requires { length left.now ≡ length right.now }
    ensures { R.number result ≡ dot_of K.product P.number left.now right.now }
{
    if left.len() < LEAST_IN_SLICES {
        return fields::dot_product::<R, P, K>(left, right);
    }
    dot_of_blocks::<R, P, K>(left, right)
}

// The sum of the products, block by block. It is apart, so that few are multiplied where the call stands.
#[inline(never)]
fn dot_of_blocks<R: Stored, P: Reads<R>, K: FieldInSlices<R>>(left: &[P], right: &[P]) -> R
    requires { length left.now ≡ length right.now }
    ensures { R.number result ≡ dot_of K.product P.number left.now right.now }
{
    let mut sum = R::ZERO;
    let mut rest_left = left;
    let mut rest_right = right;
    'parts: while rest_left.len() > 0 {
        let count = rest_left.len().min(BLOCK);
        let (block, behind) = rest_left.split_at(count);
        let (factors, others) = rest_right.split_at(count);
        sum = with_block::<R, P, K>(sum, block, factors);
        rest_left = behind;
        rest_right = others;
    }
    sum
}

// The sum with the products of a block. It is apart and never inlined, since a function clears its locals when it is called.
#[inline(never)]
fn with_block<R: Stored, P: Reads<R>, K: FieldInSlices<R>>(sum: R, left: &[P], right: &[P]) -> R
    requires same { length left.now ≡ length right.now }
    requires few { length left.now ≤ 128 }
    ensures { R.number result ≡ bit_xor (R.number sum) (dot_of K.product P.number left.now right.now) }
{
    let mut products = [sum; BLOCK];
    let mut factors = [sum; BLOCK];
    let count = left.len();
    with_products::<R, P, K>(
        sum,
        left,
        right,
        &mut products[..count],
        &mut factors[..count],
    )
}

// The sum with the products at each place: they and their factors are written on the way. The slices are of one length.
fn with_products<R: Stored, P: Reads<R>, K: FieldInSlices<R>>(
    sum: R,
    left: &[P],
    right: &[P],
    products: &mut [R],
    factors: &mut [R],
) -> R
    requires same { length left.now ≡ length right.now }
    requires room { length products.old ≡ length left.now }
    requires also { length factors.old ≡ length left.now }
    ensures { R.number result ≡ bit_xor (R.number sum) (dot_of K.product P.number left.now right.now) }
{
    read_each(products, left);
    read_each(factors, right);
    K::multiply_in_slices::<u64x2, R>(products, factors);
    let mut sum = sum;
    for place in 0..products.len() {
        sum = sum.xor(products[place]);
    }
    sum
}
