// Inverses of many elements: by one inverse and three products an element (P. L. Montgomery, Speeding the Pollard and elliptic curve
// methods of factorization, 1987, section 10.3.1), and where a field has a better way for so many, by that.
ghost use Rattle.std.specs.Prelude.{◌≡◌, ◌≢◌, ◌<◌, ℕ, length, map, slice_index, IfOk};
ghost use Rattle.field_base.specs.Field.{AreInverses};
ghost use Rattle.field_slices.specs.Inverses.{nonzero_product};

use crate::{Elements, Scalars};
use field_base::traits::Field;
use std::alloc::{AllocError, Allocator};

/// The inverses of the elements, place by place, with 0 for 0. Fewer than `F::LEAST_INVERTED` take one inverse, and three products for
/// each element that is not 0, and more go by `F::invert_each`. It fails only where the allocator refuses.
pub fn batch_multiplicative_inverse<F: Field, A: Allocator>(
    alloc: A,
    values: &[F],
) -> Result<Vec<F, A>, AllocError>
    ensures { IfOk result (λ inverses. AreInverses F.product (map F.repr values.now) (map F.repr inverses.items)) }
{
    let mut inverses = F::zero_vec(alloc, values.len())?;
    batch_multiplicative_inverse_into(values, inverses.as_mut_slice());
    Ok(inverses)
}

/// Puts the inverse in the place of each element, and leaves 0 where it is. `scratch`, of the same length, then holds the elements as
/// they were. It takes no memory.
pub fn batch_multiplicative_inverse_in_place<F: Field>(values: &mut [F], scratch: &mut [F])
    requires { length scratch.old ≡ length values.old }
    ensures inverses { AreInverses F.product (map F.repr values.old) (map F.repr values.new) }
    ensures copied { scratch.new ≡ values.old }
{
    scratch.copy_from_slice(values);
    batch_multiplicative_inverse_into(scratch, values);
}

/// Writes the inverses of the elements to `inverses`, of the same length, place by place, with 0 for 0. It takes no memory.
pub fn batch_multiplicative_inverse_into<F: Field>(values: &[F], inverses: &mut [F])
    requires { length inverses.old ≡ length values.now }
    ensures { AreInverses F.product (map F.repr values.now) (map F.repr inverses.new) }
{
    inverses_into(Elements::<F>::new(), values, inverses);
}

/// The same of values that are elements or words that stand for them.
#[inline]
pub fn inverses_into<S: Scalars>(field: S, values: &[S::Value], inverses: &mut [S::Value])
    requires { length inverses.old ≡ length values.now }
    ensures { AreInverses (S.product field) (map (S.number field) values.now) (map (S.number field) inverses.new) }
{
    if values.len() < field.least_inverted() {
        let product = products_before(field, values, inverses);
        inverses_from_products(field, values, inverses, field.invert(product));
    } else {
        field.invert_each(values, inverses);
    }
}

// Writes to each place the product of the values before it, without zeros, and returns that of all. It is not 0.
#[inline]
fn products_before<S: Scalars>(field: S, values: &[S::Value], products: &mut [S::Value]) -> S::Value
    requires { length products.old ≡ length values.now }
    ensures before { (i : ℕ) → i < length values.now
        → slice_index (map (S.number field) products.new) i ≡ nonzero_product (S.product field)
        (slice_index (map (S.number field) values.now)) i }
    ensures whole { S.number field result ≡ nonzero_product (S.product field) (slice_index (map (S.number field) values.now))
        (length values.now) }
    ensures nonzero { S.number field result ≢ 0 }
{
    let mut product = field.one();
    for place in 0..values.len() {
        let value = values[place];
        products[place] = product;
        if !field.is_zero(value) {
            product = field.multiply(product, value);
        }
    }
    product
}

// Puts the inverse of each value in the place of the product of those before it. `inverse` is that of the product of all; from the
// last place down it becomes that of the product of the values before the place.
#[inline]
fn inverses_from_products<S: Scalars>(
    field: S,
    values: &[S::Value],
    products: &mut [S::Value],
    inverse: S::Value,
)
    requires length { length products.old ≡ length values.now }
    requires before { (i : ℕ) → i < length values.now
        → slice_index (map (S.number field) products.old) i ≡ nonzero_product (S.product field)
        (slice_index (map (S.number field) values.now)) i }
    requires inverse { S.product field (nonzero_product (S.product field) (slice_index (map (S.number field) values.now))
        (length values.now)) (S.number field inverse)
        ≡ 1 }
    ensures { AreInverses (S.product field) (map (S.number field) values.now) (map (S.number field) products.new) }
{
    let mut rest = inverse;
    for place in (0..values.len()).rev() {
        let value = values[place];
        if field.is_zero(value) {
            products[place] = field.zero();
        } else {
            products[place] = field.multiply(rest, products[place]);
            rest = field.multiply(rest, value);
        }
    }
}
