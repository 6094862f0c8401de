// Minimal polynomials over GF(2), by the first power of an element that is a sum of lower ones (R. Lidl and H. Niederreiter, Finite Fields,
// definition 1.81). Polynomials are words, whose bit i is the coefficient of x^i.
ghost use Rattle.std.specs.Prelude.{◌≡◌, ◌≢◌, ℕ, ◌^◌, ◌<◌, ◌≤◌, bit_xor, slice_index};
ghost use Rattle.field_base.specs.Carryless.{carryless};
ghost use Rattle.field_base.specs.Remainder.{HasDegree};
ghost use Rattle.any_field.specs.Contexts.{IsFieldModulus, field_product, with_top};
ghost use Rattle.any_field.specs.Minimal.{IsMinimalPolynomial};
ghost use Rattle.any_field.specs.Values.{binary_value};

use crate::extension::BinaryExtension;
use crate::reduction::power_of_x;

// The place of the highest set bit.
fn degree_of(word: u128) -> usize
    requires { word ≢ 0 }
    ensures degree { HasDegree result word }
    ensures below { result < 128 }
{
    (127 - word.leading_zeros()) as usize
}

// A word plus those of `values` that take its highest bit away, again and again, until none has the degree of what is left; and the sum of
// the polynomials at their places. The value at place b has degree b, or is 0.
fn reduced(values: &[u128; 128], polynomials: &[u128; 128], word: u128) -> (u128, u128)
    requires { (b : ℕ) → b < 128 → slice_index values.now b ≢ 0 → HasDegree b (slice_index values.now b) }
    ensures sum { (f : ℕ → ℕ) → ((p q : ℕ) → f (bit_xor p q) ≡ bit_xor (f p) (f q))
        → ((b : ℕ) → b < 128 → f (slice_index polynomials.now b) ≡ slice_index values.now b) → result.0 ≡ bit_xor word (f result.1) }
    ensures below { (n : ℕ) → ((b : ℕ) → b < 128 → slice_index polynomials.now b < 2 ^ n) → result.1 < 2 ^ n }
    ensures free { (b : ℕ) → HasDegree b result.0 → slice_index values.now b ≡ 0 }
{
    let mut rest = word;
    let mut sum: u128 = 0;
    while rest != 0 {
        let place = degree_of(rest);
        if values[place] == 0 {
            return (rest, sum);
        }
        rest ^= values[place];
        sum ^= polynomials[place];
    }
    (rest, sum)
}

impl BinaryExtension {
    /// The minimal polynomial of an element over GF(2): the monic polynomial of the least degree of which it is a root, as that degree and
    /// the other terms. It is irreducible, of degree 1 to that of the field, and divides every polynomial with the root. Takes as many
    /// products as its degree is.
    pub fn minimal_polynomial(self, x: u128) -> (u32, u128)
        ensures minimal { IsMinimalPolynomial (field_product self.degree self.tail) x result.0 (with_top result.0 result.1) }
        ensures modulus { IsFieldModulus result.0 result.1 }
        ensures fits { result.0 ≤ self.degree }
        ensures divides { (p : ℕ) → binary_value (field_product self.degree self.tail) x p ≡ 0
            → (q : ℕ) × (carryless q (with_top result.0 result.1) ≡ p) }
    {
        let mut values = [0; 128];
        let mut polynomials = [0; 128];
        let mut power: u128 = 1;
        for degree in 0..self.degree {
            let (rest, sum) = reduced(&values, &polynomials, power);
            if rest == 0 {
                return (degree, sum);
            }
            let place = degree_of(rest);
            values[place] = rest;
            polynomials[place] = sum ^ power_of_x(degree);
            power = self.multiply(power, x);
        }
        let (_, sum) = reduced(&values, &polynomials, power);
        (self.degree, sum)
    }
}
