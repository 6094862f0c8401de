// The order of the digits that write the elements of a field: the highest byte first, and three coefficients lowest first.
ghost use Rattle.std.specs.Prelude.{◌≡◌, ◌≤◌, ◌^◌, ◌<◌, ℕ};
ghost use Rattle.std.proofs.Common.{lit≤, subst, sym};
ghost use Rattle.std.proofs.Math.Nat.{le_trans};
ghost use Rattle.std.proofs.Math.Pow.{pow_mono};
ghost use Rattle.calculator.specs.Fields.{lowest_first, undivided};
ghost use Rattle.calculator.specs.Number.{wide_value};

use crate::number::Number;
use field_base::{FieldKernel, Stored, Unsigned};
use word_polynomial::{CubicKernel, Modulus, Polynomials, Triple};
use word_tower::{Level, Tower};

/// A field whose elements lines may write.
pub(crate) trait Written<R: Stored>: FieldKernel<R> {
    // The number of the element that a text of some number writes, and the other way round.
    ghost order: { ℕ → ℕ };

    /// The element that a text of this number writes.
    fn element_of(written: Number) -> R
        requires { wide_value written < 2 ^ Self.width }
        ensures value { R.number result ≡ order (wide_value written) }
        ensures fits { R.number result < 2 ^ Self.width };

    /// The number that the element's text writes.
    fn number_of(x: R) -> Number
        ensures { wide_value result ≡ order (R.number x) };

    ghost number_law: { Self.width ≤ 192 };
}

/// A kernel whose texts write the number of the element, of at most 128 bits.
pub(crate) trait Undivided<R: Unsigned>: FieldKernel<R> {
    ghost word_law: { Self.width ≤ 128 };
}

impl<R: Unsigned, K: Undivided<R>> Written<R> for K {
    ghost order = { undivided };

    fn element_of(written: Number) -> R {
        R::of_u128(written.low)
    }

    fn number_of(x: R) -> Number {
        Number {
            high: 0,
            low: x.to_u128(),
        }
    }

    ghost number_law = { le_trans K.word_law (lit≤ tt) };
}

impl<R: Unsigned, L: Level<R>> Undivided<R> for Tower<L> {
    ghost word_law = { pow_mono {i = L.LEVEL} {j = 7} L.few };
}

impl<R: Unsigned, L: Level<R>, M: Modulus<R, L>> Undivided<R> for Polynomials<M, L> {
    ghost word_law = { subst (λ (width : ℕ). width ≤ 128) (sym M.width_law) (pow_mono {i = M.LEVEL} {j = 7} M.few) };
}

// The coefficients stand lowest first, so that coefficient 0 has the highest digits.
impl Written<Triple> for CubicKernel {
    ghost order = { lowest_first };

    fn element_of(written: Number) -> Triple {
        Triple {
            c0: written.high,
            c1: (written.low >> 64) as u64,
            c2: (written.low % (1 << 64)) as u64,
        }
    }

    fn number_of(x: Triple) -> Number {
        Number {
            high: x.c0,
            low: u128::from(x.c1) << 64 | u128::from(x.c2),
        }
    }

    ghost number_law = { lit≤ tt };
}
