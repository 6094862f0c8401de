// Contracts of a program's own: over any ring, where they follow from the bound alone, and at a field by its name, whose elements have
// their numbers by `repr_of`.
ghost use Rattle.std.specs.Prelude.{◌≡◌, bit_xor};
ghost use Rattle.field_base.specs.Powers.{product_of, sum_of};
ghost use Rattle.field_base.specs.Remainder.{ghash_modulus, mul_mod};
ghost use Rattle.field_element.specs.Element.{repr_of};

use binary_field::{Ghash128, PrimeCharacteristicRing};

/// The sum of a slice's elements; the empty sum is 0.
pub fn sum_of_slice<R: PrimeCharacteristicRing>(elements: &[R]) -> R
    ensures { R.repr result ≡ sum_of R.repr elements.now }
{
    elements.iter().copied().sum()
}

/// The product of a slice's elements; the empty product is 1.
pub fn product_of_slice<R: PrimeCharacteristicRing>(elements: &[R]) -> R
    ensures { R.repr result ≡ product_of R.unit R.product R.repr elements.now }
{
    elements.iter().copied().product()
}

/// The line through `(0, first)` with this slope, at `x`, in the field of GHASH.
pub fn value_on_line(first: Ghash128, slope: Ghash128, x: Ghash128) -> Ghash128
    ensures { repr_of result ≡ bit_xor (repr_of first) (mul_mod 128 ghash_modulus (repr_of slope) (repr_of x)) }
{
    first + slope * x
}
