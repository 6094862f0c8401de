// A round's message, and what a verifier does with it.
ghost use Rattle.std.specs.Prelude.{◌≡◌, ◌%◌, length, map};
ghost use Rattle.field_slices.specs.Sumcheck.{HonestIsAccepted, IsRound, quadratic_at};

use field_base::traits::Field;

/// The message of a round: the polynomial of degree at most 2 that is the sum, over the other coordinates, of the products of the two
/// multilinear polynomials at a first coordinate.
#[derive(Clone, Copy)]
pub struct RoundPolynomial<F> {
    /// The coefficient of 1.
    pub constant: F,
    /// The coefficient of x.
    pub linear: F,
    /// The coefficient of x².
    pub quadratic: F,
}

impl<F: Field> RoundPolynomial<F> {
    ghost use Rattle.field_slices.specs.Rounds.{quadratic_of};

    /// The message of the polynomials with these values at the corners. Both slices have to have one length, an even number.
    pub fn of(left: &[F], right: &[F]) -> RoundPolynomial<F>
        requires same { length right.now ≡ length left.now }
        requires even { length left.now % 2 ≡ 0 }
        ensures { IsRound F.product (map F.repr left.now) (map F.repr right.now) (quadratic_of F.repr result) }
    {
        let (lower, upper) = left.split_at(left.len() / 2);
        let (other_lower, other_upper) = right.split_at(right.len() / 2);
        let at_zero = F::dot_product_of_slices(lower, other_lower);
        let at_one = F::dot_product_of_slices(upper, other_upper);
        let crossed = F::dot_product_of_slices(lower, other_upper)
            + F::dot_product_of_slices(upper, other_lower);
        RoundPolynomial {
            constant: at_zero,
            linear: crossed,
            quadratic: (at_zero + at_one) + crossed,
        }
    }

    /// The value at `x`.
    pub fn value_at(&self, x: F) -> F
        ensures { F.repr result ≡ quadratic_at F.product (quadratic_of F.repr self.now) (F.repr x) }
    {
        self.constant + (self.linear * x + self.quadratic * x.square())
    }
}

/// States that an honest prover is accepted, whatever the challenges are.
pub fn honest_is_accepted()
    ensures { HonestIsAccepted }
{}
