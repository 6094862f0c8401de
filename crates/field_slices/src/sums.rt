// Sums and products of slices, place by place.
ghost use Rattle.std.specs.Prelude.{◌≡◌, length, map, bit_xor};
ghost use Rattle.std.specs.Simd.Lanes.{zip2};

use field_base::traits::PrimeCharacteristicRing;

/// Adds to each value the other value at its place: `values += others`.
pub fn add_slice<R: PrimeCharacteristicRing>(values: &mut [R], others: &[R])
    requires { length others.now ≡ length values.old }
    ensures { map R.repr values.new ≡ zip2 bit_xor (map R.repr values.old) (map R.repr others.now) }
{
    for place in 0..values.len() {
        values[place] = values[place] + others[place];
    }
}

/// Multiplies each value by `scalar`.
pub fn mul_slice<R: PrimeCharacteristicRing>(values: &mut [R], scalar: R)
    ensures { map R.repr values.new ≡ map (λ x. R.product (R.repr scalar) x) (map R.repr values.old) }
{
    R::multiply_by(values, scalar);
}

/// Adds to each value the product of `scalar` and the other value at its place: `values += scalar * others`.
pub fn add_scaled_slice<R: PrimeCharacteristicRing>(values: &mut [R], scalar: R, others: &[R])
    requires { length others.now ≡ length values.old }
    ensures { map R.repr values.new
        ≡ zip2 (λ x y. bit_xor x (R.product (R.repr scalar) y)) (map R.repr values.old) (map R.repr others.now) }
{
    R::add_scaled(values, scalar, others);
}
