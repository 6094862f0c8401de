// The kernel of the cubic extension of GF(2^64), over every word that holds three words.
ghost use Rattle.std.specs.Prelude.{◌≡◌, ◌≢◌, ◌<◌, ◌≤◌, ◌%◌, ◌^◌, ℕ};
ghost use Rattle.std.proofs.Common.{lit<};
ghost use Rattle.field_base.specs.Remainder.{mul_mod, poly64_modulus};
ghost use Rattle.word_polynomial.specs.Cubic.{cubic, triple};
ghost use Rattle.word_polynomial.specs.lemmas.Field192.{field_192, generator_nonzero_192, generator_order_192};

use crate::moduli::Poly64Kernel;
use crate::{
    HoldsTriple, Triple, invert_192, multiply_192, reduce_squarings_192, sqrt_192, square_192,
};
use field_base::{Contains, FieldKernel};

/// The cubic extension of GF(2^64), which adjoins a root y of y³ + y + 1.
pub struct CubicKernel;

impl<R: HoldsTriple> FieldKernel<R> for CubicKernel {
    ghost width = { 192 };

    ghost product = { cubic 64 (mul_mod 64 poly64_modulus) };

    ghost generator = { triple 64 5 3 1 };

    const NAME: &'static str = "Poly192";

    const GENERATOR: R = R::GENERATOR;

    ghost GENERATOR = { R.GENERATOR };

    ghost reduced = { λ low high. R.number low };

    ghost field_law = { field_192 };

    ghost wide_law = { lit< tt };

    ghost generator_fits = { lit< tt };

    #[inline]
    fn bits() -> usize {
        192
    }

    // Three words have no bit above the field.
    #[inline]
    fn truncate(x: R) -> R {
        x
    }

    #[inline]
    fn multiply(x: R, y: R) -> R {
        R::of_triple(multiply_192(x.to_triple(), y.to_triple()))
    }

    // Called by loops apart and in place: by a call of its own its three words would go through memory.
    #[inline(always)]
    fn square(x: R) -> R {
        R::of_triple(square_192(x.to_triple()))
    }

    #[inline]
    fn invert(x: R) -> R {
        R::of_triple(invert_192(x.to_triple()))
    }

    #[inline(always)]
    fn sqrt(x: R) -> R {
        R::of_triple(sqrt_192(x.to_triple()))
    }

    #[inline]
    fn reduce_squarings(x: R, count: usize) -> (R, usize) {
        let (words, rest) = reduce_squarings_192(x.to_triple(), count);
        (R::of_triple(words), rest)
    }

    #[inline]
    fn no_products() -> (R, R) {
        (R::ZERO, R::ZERO)
    }

    // A product is reduced at once.
    #[inline]
    fn add_product(low: R, high: R, x: R, y: R) -> (R, R) {
        let product = multiply_192(x.to_triple(), y.to_triple());
        (low.xor(R::of_triple(product)), high)
    }

    #[inline]
    fn reduce_sum(low: R, _high: R) -> R {
        low
    }

    ghost room_law = { R.triple_law };

    ghost reduced_fits = { λ low high. R.range_law low };

    ghost generator_is = { R.generator_law };

    ghost generator_nonzero = { generator_nonzero_192 };

    ghost generator_law = { generator_order_192 };
}

// GF(2^64) inside its cubic extension: an element is coefficient 0.
impl<R: HoldsTriple> Contains<R, u64, Poly64Kernel> for CubicKernel {
    ghost image = { λ n. n };

    #[inline]
    fn embed(x: u64) -> R {
        R::of_triple(Triple::of_low(x))
    }
}
