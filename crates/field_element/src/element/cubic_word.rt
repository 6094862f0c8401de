// The coefficients of an element of `Poly192` as its stored word, which holds their words.
ghost use prog.Memory.{size};
ghost use denote.Param.{layout};
ghost use Rattle.std.specs.Prelude.{◌≡◌, ◌≢◌, ◌<◌, ◌≤◌, ◌*◌, ◌%◌, ◌^◌, ◌∷◌, [], ℕ, refl};
ghost use Rattle.std.proofs.Common.{lit<, lit≤, rules};
ghost use Rattle.field_base.specs.lemmas.Room.{few_fit};
ghost use Rattle.word_polynomial.specs.Cubic.{triple};
ghost use Rattle.word_polynomial.specs.lemmas.Triple.{fits_192, triple-chunks, words_law};
ghost use Rattle.field_element.specs.Coefficients.{coefficients_of_number, coefficients_of_words};
ghost use Rattle.field_element.specs.Coefficients.{stored_number, stored_words};
ghost use Rattle.field_element.specs.lemmas.Coefficients.{same_coefficients};

use crate::element::{Coefficients, Element};
use crate::names::Poly64;
use field_base::{Joins, Stored};
use std::marker::PhantomData;
use word_polynomial::{CubicKernel, HoldsTriple, Poly64Kernel, Triple};

// The elements 0 and 1 of `Poly64`: the value of a constant can name none that a trait provides.
const ZERO_COEFFICIENT: Poly64 = Element {
    repr: 0,
    field: PhantomData,
};

const ONE_COEFFICIENT: Poly64 = Element {
    repr: 1,
    field: PhantomData,
};

impl Stored for Coefficients {
    ghost number = { stored_number };

    ghost bits = { 192 };

    ghost of_number = { coefficients_of_number };

    ghost number_of = { λ n. triple-chunks 64 n };

    const ZERO: Coefficients = Coefficients {
        coefficients: [ZERO_COEFFICIENT; 3],
    };

    ghost ZERO = { coefficients_of_words 0 0 0 (lit< tt) (lit< tt) (lit< tt) };

    const ONE: Coefficients = Coefficients {
        coefficients: [ONE_COEFFICIENT, ZERO_COEFFICIENT, ZERO_COEFFICIENT],
    };

    ghost ONE = { coefficients_of_words 1 0 0 (lit< tt) (lit< tt) (lit< tt) };

    ghost zero_number = { refl };

    ghost one_number = { refl };

    ghost same_law = { same_coefficients };

    #[inline]
    fn xor(self, other: Coefficients) -> Coefficients {
        Coefficients::of_words(self.words().xor(other.words()))
    }

    fn of_index(i: usize) -> Coefficients {
        Coefficients::of_words(Triple::of_low(i as u64))
    }

    #[inline(always)]
    fn words_fit(words: &[Coefficients]) {}

    ghost eq_law = { λ x y. words_law (stored_words x) (stored_words y) (Prim.search rules) };

    ghost room_law = { few_fit 1024 24 (lit< tt) };
}

impl HoldsTriple for Coefficients {
    const GENERATOR: Coefficients = Coefficients {
        coefficients: [
            Element {
                repr: 5,
                field: PhantomData,
            },
            Element {
                repr: 3,
                field: PhantomData,
            },
            ONE_COEFFICIENT,
        ],
    };

    ghost GENERATOR = { coefficients_of_words 5 3 1 (lit< tt) (lit< tt) (lit< tt) };

    #[inline]
    fn to_triple(self) -> Triple {
        self.words()
    }

    #[inline]
    fn of_triple(words: Triple) -> Coefficients {
        Coefficients::of_words(words)
    }

    ghost triple_law = { lit≤ tt };

    ghost range_law = { λ x. fits_192 (stored_words x) };

    ghost generator_law = { same_coefficients _ (coefficients_of_number (triple 64 5 3 1)) refl };
}

// Where the element of GF(2^64) stands on the left, the extension is the field of the result.
impl Joins<u64, Coefficients, CubicKernel> for Poly64Kernel {
    type Upper = Coefficients;

    type Field = CubicKernel;
}
